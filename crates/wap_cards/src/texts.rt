//! Texts that are looked for.
ghost use Rattle.std.specs.Prelude.{◌≡◌, ◌||◌, [], List, ℕ, OnOk, OnErr};
ghost use Rattle.std.specs.List.{list_any};
ghost use Rattle.wap_base.specs.Texts.{is_same_text};

use std::alloc::Global;
use std::collections::BTreeSet;
use std::marker::Model;
use wap_base::{NoMemory, Text};

/// Some texts. A contract sees a list of them.
#[derive(Drop)]
pub struct Texts {
    texts: BTreeSet<Text>,
}

impl Model for Texts {
    ghost use Rattle.std.specs.Prelude.{List, ℕ};

    ghost Value = { List (List ℕ) };

    ghost view = { λ texts. texts.texts.keys };
}

impl Texts {
    /// No texts yet.
    pub fn new(alloc: Global) -> Texts
        ensures { result ≡ [] }
    {
        Texts {
            texts: BTreeSet::new(alloc),
        }
    }

    /// Adds a text. When out of memory nothing is added.
    pub fn add(&mut self, text: Text) -> Result<(), NoMemory>
        ensures ok { OnOk result ((one : List ℕ) → list_any (is_same_text one) self.new
            ≡ (is_same_text one text || list_any (is_same_text one) self.old)) }
        ensures kept { OnErr result (self.new ≡ self.old) }
    {
        self.texts.insert(text)?;
        Ok(())
    }

    /// Whether a text is among them.
    pub fn has(&self, text: &Text) -> bool
        ensures { result ≡ list_any (is_same_text text.now) self.now }
    {
        self.texts.contains(text)
    }
}
