//! An element that is being put together: what stands in it so far, by the groups of its rule, and
//! the paragraph in it that isn't ended yet.
ghost use Rattle.std.specs.Prelude.{◌≡◌, ◌≢◌, ◌<◌, [], true, false};
ghost use Rattle.wap_tokens.specs.markup.Good.{rule_of, holds_dos};
ghost use Rattle.wap_mend.specs.Accounts.{is_paragraph};
ghost use Rattle.wap_mend.specs.inside.Frames.{nothing};

mod adding;
mod closing;
mod paragraphs;

use crate::content::{Content, Element};
pub(crate) use crate::frame::paragraphs::Outer;
use std::alloc::Global;
use std::marker::Model;
use wap_base::Rows;
use wap_tokens::markup::{LEVEL_LIMIT, Tag};

/// Where an element may stand in another.
#[derive(Clone, Copy)]
pub(crate) enum Place {
    /// In a group of its rule.
    Group,
    /// In a paragraph in it.
    Run,
    /// As a paragraph in it.
    Paragraph,
    Nowhere,
}

/// An element that is being put together. Where its groups come in their order, which is so in a
/// card, they are its events, its timer, and the rest; else all is in the first. A contract sees
/// its rule, the levels of the elements in it, what is in it, and in the paragraph that is open.
#[derive(Drop)]
pub(crate) struct Frame {
    /// The last group of which there is an element.
    reached: usize,
    first: Content,
    second: Option<Element>,
    third: Rows<Element>,
    /// What is in the paragraph that isn't ended.
    run: Content,
    /// The paragraph of the deck that was given in which the walk is.
    outer: Option<Outer>,
}

impl Model for Frame {
    ghost use Rattle.wap_mend.specs.inside.Frames.{Framed, framed, IsFramed};

    ghost Value = { Framed };

    ghost view = { λ frame. framed frame.first frame.second frame.third frame.run };

    ghost invariant = { λ frame. IsFramed frame.first frame.second frame.third frame.run };
}

/// Whether an element may stand in the root alone, or is the root, or isn't known.
fn is_top(tag: Tag) -> bool
    ensures known { result ≡ false → tag ≢ Tag.Other }
    ensures inner { result ≡ false → holds_dos tag ≡ false }
{
    if tag == Tag::Card || tag == Tag::Template {
        return true;
    }
    tag == Tag::Head || tag == Tag::Wml || tag == Tag::Other
}

/// Whether an element of a tag is a paragraph.
fn is_paragraph(tag: Tag) -> bool
    ensures { result ≡ is_paragraph tag }
{
    tag == Tag::P || tag == Tag::Pre
}

impl Frame {
    /// Nothing yet in an element of a tag, and room for so many levels.
    #[tactic(auto, using(crate::proofs::Framing::nothing_framed))]
    pub(crate) fn new(alloc: Global, tag: Tag, room: u32) -> Frame
        requires { room < LEVEL_LIMIT }
        ensures { result
            ≡ record { rule = rule_of tag; room = room; load = nothing; running = nothing } }
    {
        Frame {
            reached: 0,
            first: Content::new(alloc, tag, room),
            second: None,
            third: Rows::new(alloc),
            run: Content::new(alloc, Tag::P, room.saturating_sub(1)),
            outer: None,
        }
    }

    /// Whether its groups come in their order.
    fn is_in_order(&self) -> bool
        ensures { result ≡ self.now.rule.in_order }
    {
        self.first.rule().is_in_order()
    }

    /// Whether there may be paragraphs in it, and other groups beside them.
    fn has_paragraphs(&self) -> bool
        ensures { result ≡ true → self.now.rule.in_order ≡ true }
    {
        self.is_in_order() && self.first.room() > 0 && self.first.rule().place_of(Tag::P).is_some()
    }

    /// Where an element may stand in it, among paragraphs.
    fn place_among(&self, tag: Tag) -> Place
        ensures { result ≡ Place.Paragraph → is_paragraph tag ≡ true }
    {
        if is_paragraph(tag) {
            return Place::Paragraph;
        }
        if self.outer.is_none() && self.first.rule().place_of(tag).is_some() {
            return Place::Group;
        }
        if self.run.rule().place_of(tag).is_some() {
            Place::Run
        } else {
            Place::Nowhere
        }
    }

    /// Where an element may stand in it, which isn't the root.
    pub(crate) fn place_of(&self, tag: Tag) -> Place
        ensures known { result ≢ Place.Nowhere → tag ≢ Tag.Other }
        ensures inner { result ≢ Place.Nowhere → holds_dos tag ≡ false }
        ensures paragraph { result ≡ Place.Paragraph → is_paragraph tag ≡ true }
        ensures run { result ≡ Place.Run → self.now.rule.in_order ≡ true }
    {
        if is_top(tag) {
            return Place::Nowhere;
        }
        if self.has_paragraphs() {
            return self.place_among(tag);
        }
        if self.first.rule().place_of(tag).is_some() {
            Place::Group
        } else {
            Place::Nowhere
        }
    }

    /// How many levels there are for an element at a place.
    pub(crate) fn room_at(&self, place: Place) -> u32
        ensures { result < LEVEL_LIMIT }
    {
        match place {
            Place::Run => self.run.room(),
            Place::Group | Place::Paragraph | Place::Nowhere => self.first.room(),
        }
    }

    /// Whether an element at a place is of a sort of which there may be one, and there is one.
    pub(crate) fn is_second(&self, place: Place, tag: Tag) -> bool {
        match place {
            Place::Group if self.is_in_order() => tag == Tag::Timer && self.second.is_some(),
            Place::Group => !self.first.accepts(tag),
            Place::Run | Place::Paragraph | Place::Nowhere => false,
        }
    }
}
