//! Texts and elements are put where they may stand in an element.
ghost use Rattle.std.specs.Prelude.{◌≡◌, [], true, OnOk};
ghost use Rattle.std.specs.List.{AllByRecursion};
ghost use Rattle.wap_tokens.specs.markup.Normal.{IsPart};
ghost use Rattle.wap_mend.specs.inside.Frames.{nothing, load_built, text_load, Gains};
ghost use Rattle.wap_mend.specs.inside.Frames.{IsMute, IsQuiet};

use crate::change::{Lost, What};
use crate::content::{Content, Element};
use crate::frame::closing::add_one;
use crate::frame::{Frame, Place};
use crate::notes::Notes;
use std::alloc::Global;
use std::mem::replace;
use wap_base::{NoMemory, Part};
use wap_deckcheck::is_blank_text;
use wap_tokens::markup::Tag;

/// The group of a card in which an element of a tag is.
fn group_of(tag: Tag) -> usize {
    match tag {
        Tag::Onevent => 0,
        Tag::Timer => 1,
        _ => 2,
    }
}

impl Frame {
    /// Notes an element that comes behind one of a later group (rule 7).
    fn reach(&mut self, alloc: Global, notes: &mut Notes, tag: Tag) -> Result<(), NoMemory>
        ensures gains { OnOk result
            (Gains notes.old.changes notes.new.changes self.old self.new nothing) }
        ensures running { self.new.running ≡ self.old.running }
    {
        let group = group_of(tag);
        if group < self.reached {
            return notes.note(alloc, What::Moved(tag));
        }
        self.reached = group;
        Ok(())
    }

    /// Adds an element to the first group, if it may stand there. Meanwhile that of a card in which
    /// is nothing stands in its place.
    fn add_to_first(
        &mut self,
        alloc: Global,
        notes: &mut Notes,
        element: Element,
    ) -> Result<(), NoMemory>
        requires { self.old.rule.in_order ≡ true → IsMute element }
        ensures gains { OnOk result (Gains notes.old.changes notes.new.changes self.old self.new
            (load_built element)) }
        ensures running { self.new.running ≡ self.old.running }
    {
        let mut first = replace(&mut self.first, Content::new(alloc, Tag::Card, 0));
        add_one(alloc, notes, &mut first, element)?;
        self.first = first;
        Ok(())
    }

    /// Adds a timer, if there is none.
    fn add_timer(
        &mut self,
        alloc: Global,
        notes: &mut Notes,
        element: Element,
    ) -> Result<(), NoMemory>
        requires { IsMute element }
        ensures gains { OnOk result (Gains notes.old.changes notes.new.changes self.old self.new
            (load_built element)) }
        ensures running { self.new.running ≡ self.old.running }
    {
        if self.second.is_some() {
            return notes.note_lost(alloc, What::Gone(Tag::Timer), element.lost(alloc)?);
        }
        self.second = Some(element);
        Ok(())
    }

    /// Adds an element to the group of its tag.
    fn add_by_tag(
        &mut self,
        alloc: Global,
        notes: &mut Notes,
        element: Element,
    ) -> Result<(), NoMemory>
        requires order { self.old.rule.in_order ≡ true }
        requires running { self.old.running ≡ nothing }
        requires quiet { IsQuiet element }
        ensures gains { OnOk result (Gains notes.old.changes notes.new.changes self.old self.new
            (load_built element)) }
        ensures running { self.new.running ≡ nothing }
    {
        match element.tag() {
            Tag::Onevent => self.add_to_first(alloc, notes, element),
            Tag::Timer => self.add_timer(alloc, notes, element),
            _ => self.third.add(element),
        }
    }

    /// Adds an element, in a card before those of later groups (rule 7).
    pub(super) fn add_in_order(
        &mut self,
        alloc: Global,
        notes: &mut Notes,
        element: Element,
    ) -> Result<(), NoMemory>
        requires { self.old.running ≡ nothing }
        ensures gains { OnOk result (Gains notes.old.changes notes.new.changes self.old self.new
            (load_built element)) }
        ensures running { self.new.running ≡ nothing }
    {
        if !self.is_in_order() {
            return self.add_to_first(alloc, notes, element);
        }
        self.reach(alloc, notes, element.tag())?;
        self.add_by_tag(alloc, notes, element)
    }

    /// Begins a paragraph, or ends the one that is open, before an element at a place.
    pub(crate) fn prepare(
        &mut self,
        alloc: Global,
        notes: &mut Notes,
        place: Place,
    ) -> Result<(), NoMemory>
        ensures { OnOk result
            (Gains notes.old.changes notes.new.changes self.old self.new nothing) }
    {
        match place {
            Place::Run => self.begin_run(alloc, notes),
            Place::Group | Place::Paragraph | Place::Nowhere => self.end_run(alloc, notes),
        }
    }

    /// Adds an element to the paragraph that is open, if it may stand there.
    fn add_in_run(
        &mut self,
        alloc: Global,
        notes: &mut Notes,
        element: Element,
    ) -> Result<(), NoMemory>
        requires { self.old.rule.in_order ≡ true }
        ensures { OnOk result (Gains notes.old.changes notes.new.changes self.old self.new
            (load_built element)) }
    {
        let room = self.run.room();
        let mut run = replace(&mut self.run, Content::new(alloc, Tag::P, room));
        add_one(alloc, notes, &mut run, element)?;
        self.run = run;
        Ok(())
    }

    /// Adds an element at its place, for which the frame was prepared.
    pub(crate) fn add(
        &mut self,
        alloc: Global,
        notes: &mut Notes,
        place: Place,
        element: Element,
    ) -> Result<(), NoMemory>
        requires { place ≡ Place.Run → self.old.rule.in_order ≡ true }
        ensures { OnOk result (Gains notes.old.changes notes.new.changes self.old self.new
            (load_built element)) }
    {
        if let Place::Run = place {
            return self.add_in_run(alloc, notes, element);
        }
        self.end_run(alloc, notes)?;
        self.add_in_order(alloc, notes, element)
    }

    /// Adds a text to the paragraph that is open, or that begins.
    fn add_text_in_run(
        &mut self,
        alloc: Global,
        notes: &mut Notes,
        parts: &[Part],
    ) -> Result<(), NoMemory>
        requires order { self.old.rule.in_order ≡ true }
        requires parts { AllByRecursion IsPart parts.now }
        ensures { OnOk result (Gains notes.old.changes notes.new.changes self.old self.new
            (text_load parts.now)) }
    {
        self.begin_run(alloc, notes)?;
        let room = self.run.room();
        let mut run = replace(&mut self.run, Content::new(alloc, Tag::P, room));
        run.add_text(alloc, parts)?;
        self.run = run;
        Ok(())
    }

    /// Adds a text where there have to be paragraphs, in one (rule 3).
    fn add_to_run(
        &mut self,
        alloc: Global,
        notes: &mut Notes,
        parts: &[Part],
    ) -> Result<(), NoMemory>
        requires order { self.old.rule.in_order ≡ true }
        requires parts { AllByRecursion IsPart parts.now }
        ensures { OnOk result (Gains notes.old.changes notes.new.changes self.old self.new
            (text_load parts.now)) }
    {
        if is_blank_text(parts) && self.outer.is_none() && self.run.is_empty() {
            return Ok(());
        }
        self.add_text_in_run(alloc, notes, parts)
    }

    /// Adds a text where there are no paragraphs; where it may not stand it goes (rule 2).
    fn add_to_all(
        &mut self,
        alloc: Global,
        notes: &mut Notes,
        parts: &[Part],
    ) -> Result<(), NoMemory>
        requires { AllByRecursion IsPart parts.now }
        ensures { OnOk result (Gains notes.old.changes notes.new.changes self.old self.new
            (text_load parts.now)) }
    {
        if self.is_in_order() || !self.first.rule().has_text() {
            return notes.note_lost(alloc, What::Text, Lost::of_text(alloc, parts)?);
        }
        let mut first = replace(&mut self.first, Content::new(alloc, Tag::Card, 0));
        first.add_text(alloc, parts)?;
        self.first = first;
        Ok(())
    }

    /// Adds a text, in a paragraph where there have to be paragraphs (rule 3); where there may be
    /// neither it goes (rule 2).
    pub(crate) fn add_text(
        &mut self,
        alloc: Global,
        notes: &mut Notes,
        parts: &[Part],
    ) -> Result<(), NoMemory>
        requires { AllByRecursion IsPart parts.now }
        ensures { OnOk result (Gains notes.old.changes notes.new.changes self.old self.new
            (text_load parts.now)) }
    {
        if self.has_paragraphs() {
            return self.add_to_run(alloc, notes, parts);
        }
        if is_blank_text(parts) && !self.first.rule().has_text() {
            return Ok(());
        }
        self.add_to_all(alloc, notes, parts)
    }
}
