//! What the bytes before settle for those after them.
ghost use Rattle.std.specs.Prelude.{◌≡◌, OnOk, OnErr};
ghost use Rattle.indexmap.specs.IndexSet.{insert_key};
ghost use Rattle.wap_base.specs.Outcome.{Meets};
ghost use Rattle.wap_base.specs.Texts.{is_same_text};
ghost use Rattle.wap_tokens.specs.markup.Documents.{first_state, into_root, out_of_root};
ghost use Rattle.wap_tokens.specs.markup.Grammar.{on_tag_page, on_attribute_page};
ghost use Rattle.wap_wbxml.specs.declared.fault.DocFault.TheVariants as fault;
ghost use Rattle.wap_wbxml.specs.reading.Fronts.{counted_at};

use crate::DocFault;
use indexmap::IndexSet;
use std::alloc::Global;
use std::marker::Model;
use wap_base::{NoMemory, Text};

/// The pages of codes, and the names of the root so far, with how many bytes a string table of
/// them takes.
#[derive(Drop)]
pub struct State {
    tag_page: u8,
    attribute_page: u8,
    in_root: bool,
    names: IndexSet<Text>,
    size: u32,
}

impl Model for State {
    ghost use Rattle.std.specs.Prelude.{◌≡◌};
    ghost use Rattle.wap_tokens.specs.markup.Grammar.{State as Settled, table_size};

    ghost Value = { Settled };

    ghost view = { λ state. record {
      tag_page = state.tag_page;
      attribute_page = state.attribute_page;
      in_root = state.in_root;
      names = state.names.keys;
    } };

    ghost invariant = { λ state. state.size ≡ table_size state.names.keys };
}

impl State {
    /// Both pages are 0, and no name is known yet.
    pub fn new(alloc: Global) -> State
        ensures { result ≡ first_state }
    {
        State {
            tag_page: 0,
            attribute_page: 0,
            in_root: false,
            names: IndexSet::new(alloc),
            size: 0,
        }
    }

    /// The page on which tags stand.
    pub fn tag_page(&self) -> u8
        ensures { result ≡ self.now.tag_page }
    {
        self.tag_page
    }

    /// The page on which starts and values of attributes stand.
    pub fn attribute_page(&self) -> u8
        ensures { result ≡ self.now.attribute_page }
    {
        self.attribute_page
    }

    /// Goes to another page of tags.
    pub fn go_to_tag_page(&mut self, page: u8)
        ensures { self.new ≡ on_tag_page page self.old }
    {
        self.tag_page = page;
    }

    /// Goes to another page of attributes.
    pub fn go_to_attribute_page(&mut self, page: u8)
        ensures { self.new ≡ on_attribute_page page self.old }
    {
        self.attribute_page = page;
    }

    /// Names count from here on.
    pub fn enter_root(&mut self)
        ensures { self.new ≡ into_root self.old }
    {
        self.in_root = true;
    }

    /// Names count no more.
    pub fn leave_root(&mut self)
        ensures { self.new ≡ out_of_root self.old }
    {
        self.in_root = false;
    }

    /// Counts a name, if it stands in the root and none before it is the same. `at` is the byte
    /// that calls for it.
    #[tactic(auto, unfolding(crate::specs::reading::Fronts::counted_at))]
    pub fn count(&mut self, alloc: Global, name: &Text, at: usize) -> Result<(), DocFault>
        ensures { Meets fault.NoMemory (λ _. self.new) result (counted_at at self.old name.now) }
    {
        if !self.in_root || self.names.contains(name) {
            return Ok(());
        }
        let len = name.len();
        if len >= (u32::MAX - self.size) as usize {
            return Err(DocFault::Table { at });
        }
        add(&mut self.names, name.copy(alloc)?)?;
        self.size = self.size + len as u32 + 1;
        Ok(())
    }
}

/// Adds a name after the others, if it isn't one of them.
fn add(names: &mut IndexSet<Text>, name: Text) -> Result<(), NoMemory>
    ensures ok { OnOk result (names.new.keys ≡ insert_key is_same_text names.old.keys name) }
    ensures err { OnErr result (names.new.keys ≡ names.old.keys) }
{
    match names.insert(name) {
        Ok(_) => Ok(()),
        Err(_) => Err(NoMemory),
    }
}
