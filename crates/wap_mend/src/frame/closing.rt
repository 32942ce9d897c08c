//! What stands in an element when all of it was put there.
ghost use Rattle.std.specs.Prelude.{IfOk, OnOk};
ghost use Rattle.wap_mend.specs.inside.Frames.{Collects, Closes, load_built, load_if, load_all};

use crate::change::What;
use crate::content::{Content, Element};
use crate::frame::Frame;
use crate::notes::Notes;
use std::alloc::Global;
use wap_base::{NoMemory, Rows};

/// Adds an element, if it may stand there.
#[tactic(auto, using(crate::proofs::Framing::element_lost))]
pub(super) fn add_one(
    alloc: Global,
    notes: &mut Notes,
    content: &mut Content,
    element: Element,
) -> Result<(), NoMemory>
    ensures { OnOk result (Collects notes.old.changes notes.new.changes content.old content.new
        (load_built element)) }
{
    if content.takes(&element) {
        content.add(element)?;
        return Ok(());
    }
    notes.note_lost(alloc, What::Gone(element.tag()), element.lost(alloc)?)
}

/// Adds an element, if there is one.
fn add_any(
    alloc: Global,
    notes: &mut Notes,
    content: &mut Content,
    element: Option<Element>,
) -> Result<(), NoMemory>
    ensures { OnOk result (Collects notes.old.changes notes.new.changes content.old content.new
        (load_if element)) }
{
    match element {
        Some(element) => add_one(alloc, notes, content, element),
        None => Ok(()),
    }
}

/// Adds elements.
fn add_all(
    alloc: Global,
    notes: &mut Notes,
    content: &mut Content,
    elements: Rows<Element>,
) -> Result<(), NoMemory>
    ensures { OnOk result (Collects notes.old.changes notes.new.changes content.old content.new
        (load_all elements)) }
{
    for element in elements.into_vec() {
        add_one(alloc, notes, content, element)?;
    }
    Ok(())
}

impl Frame {
    /// What stands in it, in the order of its groups.
    pub(crate) fn close(mut self, alloc: Global, notes: &mut Notes) -> Result<Content, NoMemory>
        ensures { IfOk result (Closes notes.old.changes notes.new.changes self) }
    {
        self.end_run(alloc, notes)?;
        let Frame {
            mut first,
            second,
            third,
            ..
        } = self;
        add_any(alloc, notes, &mut first, second)?;
        add_all(alloc, notes, &mut first, third)?;
        Ok(first)
    }
}
