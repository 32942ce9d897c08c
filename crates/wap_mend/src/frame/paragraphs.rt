//! The paragraph that is open in an element: one of the deck that was given, or one that is put
//! round texts and what may stand in a paragraph (rule 3).
ghost use Rattle.std.specs.Prelude.{◌≡◌, [], true, IfOk, OnOk};
ghost use Rattle.wap_mend.specs.Accounts.{is_paragraph};
ghost use Rattle.wap_mend.specs.inside.Frames.{Gains, IsStill, nothing};

use crate::change::{Lost, What};
use crate::content::{Content, Element};
use crate::frame::Frame;
use crate::kept::Attributes;
use crate::notes::Notes;
use std::alloc::Global;
use std::marker::Model;
use std::mem::replace;
use wap_base::NoMemory;
use wap_tokens::markup::Tag;

/// A paragraph of the deck that was given. A contract sees whether another one parted it.
#[derive(Drop)]
pub(crate) struct Outer {
    attributes: Attributes,
    is_parted: bool,
}

impl Model for Outer {
    ghost use Rattle.std.specs.Prelude.{◌≡◌, Bool, true};
    ghost use Rattle.wap_mend.specs.Accounts.{is_paragraph};

    ghost Value = { Bool };

    ghost view = { λ outer. outer.is_parted };

    ghost invariant = { λ outer. is_paragraph outer.attributes.tag ≡ true };
}

/// Notes a paragraph that another one of a tag parts, if there is one.
fn parted(
    alloc: Global,
    notes: &mut Notes,
    outer: Option<Outer>,
    tag: Tag,
) -> Result<Option<Outer>, NoMemory>
    ensures { OnOk result (IsStill notes.old.changes notes.new.changes) }
{
    let Some(mut outer) = outer else {
        return Ok(None);
    };
    outer.is_parted = true;
    notes.note(alloc, What::Parted(tag))?;
    Ok(Some(outer))
}

impl Frame {
    /// Notes a paragraph that begins, if none is open.
    #[tactic(auto, using(crate::proofs::Framing::gains_nothing))]
    pub(super) fn begin_run(&mut self, alloc: Global, notes: &mut Notes) -> Result<(), NoMemory>
        ensures { OnOk result
            (Gains notes.old.changes notes.new.changes self.old self.new nothing) }
    {
        if self.outer.is_none() && self.run.is_empty() {
            return notes.note(alloc, What::Wrapped);
        }
        Ok(())
    }

    /// The attributes of the paragraph that is open.
    fn paragraph(&self, alloc: Global) -> Result<Attributes, NoMemory>
        ensures { IfOk result (λ attributes. is_paragraph attributes.tag ≡ true) }
    {
        match &self.outer {
            None => Ok(Attributes::new(alloc, Tag::P)),
            Some(outer) => outer.attributes.copy(alloc),
        }
    }

    /// Ends the paragraph that is open, also if nothing is in it.
    pub(super) fn put_run(&mut self, alloc: Global, notes: &mut Notes) -> Result<(), NoMemory>
        ensures gains { OnOk result
            (Gains notes.old.changes notes.new.changes self.old self.new nothing) }
        ensures running { OnOk result (self.new.running ≡ nothing) }
    {
        let attributes = self.paragraph(alloc)?;
        let tag = attributes.tag();
        let room = self.run.room();
        let content = replace(&mut self.run, Content::new(alloc, Tag::P, room));
        match Element::of(attributes, content) {
            Ok(element) => self.add_in_order(alloc, notes, element),
            Err(node) => {
                let lost = Lost::of_node(alloc, room + 1, &node)?;
                notes.note_lost(alloc, What::Gone(tag), lost)
            }
        }
    }

    /// Ends the paragraph that is open, if anything is in it.
    pub(super) fn end_run(&mut self, alloc: Global, notes: &mut Notes) -> Result<(), NoMemory>
        ensures gains { OnOk result
            (Gains notes.old.changes notes.new.changes self.old self.new nothing) }
        ensures running { OnOk result (self.new.running ≡ nothing) }
    {
        if self.run.is_empty() {
            return Ok(());
        }
        self.put_run(alloc, notes)
    }

    /// Begins a paragraph, and ends or parts the one that is open. The answer is what `leave`
    /// needs.
    pub(crate) fn enter(
        &mut self,
        alloc: Global,
        notes: &mut Notes,
        attributes: Attributes,
    ) -> Result<Option<Outer>, NoMemory>
        requires { is_paragraph attributes.tag ≡ true }
        ensures { OnOk result
            (Gains notes.old.changes notes.new.changes self.old self.new nothing) }
    {
        self.end_run(alloc, notes)?;
        let open = replace(&mut self.outer, None);
        let outer = parted(alloc, notes, open, attributes.tag())?;
        self.outer = Some(Outer {
            attributes,
            is_parted: false,
        });
        Ok(outer)
    }

    /// Ends the paragraph that is open, if it isn't parted also if nothing is in it.
    fn end_outer(&mut self, alloc: Global, notes: &mut Notes) -> Result<(), NoMemory>
        ensures { OnOk result
            (Gains notes.old.changes notes.new.changes self.old self.new nothing) }
    {
        let is_parted = match &self.outer {
            Some(one) => one.is_parted,
            None => false,
        };
        if is_parted {
            self.end_run(alloc, notes)
        } else {
            self.put_run(alloc, notes)
        }
    }

    /// Ends a paragraph, and goes on with the one in which it stands, if there is one.
    pub(crate) fn leave(
        &mut self,
        alloc: Global,
        notes: &mut Notes,
        outer: Option<Outer>,
    ) -> Result<(), NoMemory>
        ensures { OnOk result
            (Gains notes.old.changes notes.new.changes self.old self.new nothing) }
    {
        self.end_outer(alloc, notes)?;
        self.outer = outer;
        Ok(())
    }
}
