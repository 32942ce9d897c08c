//! Elements and their content as they are put together: of a kind that documents can mean, and by
//! the rules of the elements.
ghost use Rattle.std.specs.Prelude.{◌≡◌, ◌≢◌, [], ◌∷◌, ◌++◌, ◌<◌, ◌&&◌, ◌↔◌, suc, true, map};
ghost use Rattle.std.specs.Prelude.{nat_eq, is_ok, if◌then◌else◌, IsTrue, IfOk, OnOk, IfErr};
ghost use Rattle.std.specs.List.{filter_map, AllByRecursion};
ghost use Rattle.wap_tokens.specs.declared.markup.deck.Item.TheVariants as item;
ghost use Rattle.wap_tokens.specs.markup.Decks.{part};
ghost use Rattle.wap_tokens.specs.markup.Trees.{node_of};
ghost use Rattle.wap_tokens.specs.markup.Good.{rule_of, has_needs, holds_dos, may_follow, tags_of};
ghost use Rattle.wap_tokens.specs.markup.Normal.{IsPart};
ghost use Rattle.wap_deck.specs.documents.Adding.{part_after, marks_after};
ghost use Rattle.wap_deckcheck.specs.Places.{names_among};
ghost use Rattle.wap_base.specs.Texts.{AreDistinct};
ghost use Rattle.wap_mend.specs.inside.Building.{Built, IsApart, IsBuilt, Filled, IsFilled};
ghost use Rattle.wap_mend.specs.inside.Frames.{load_lost, given_node, IsSame};

use crate::change::Lost;
use crate::kept::Attributes;
use crate::values::copied_part;
use std::alloc::Global;
use std::marker::Model;
use std::mem::replace;
use wap_base::{NoMemory, Part, Rows};
use wap_deck::documents::add_text;
use wap_deckcheck::{Rule, has_needs};
use wap_tokens::markup::{Item, LEVEL_LIMIT, Node, Tag};

/// An element of so many levels. A contract sees both.
#[derive(Drop)]
pub(crate) struct Element {
    levels: u32,
    node: Node,
}

impl Model for Element {
    ghost use Rattle.std.specs.Coded.{codes};
    ghost use Rattle.wap_tokens.specs.contracts.markup.deck.Item as item;
    ghost use Rattle.wap_mend.specs.inside.Building.{Built, IsBuilt};

    ghost Value = { Built };

    ghost coded = { Prim.hlevel (codes, item.the_row.coded) };

    ghost view = { λ element. record { levels = element.levels; node = element.node } };

    ghost invariant = { λ element. IsBuilt element.levels element.node };
}

impl Element {
    /// An element with attributes and content, if it has what it can't do without; else the node
    /// comes back.
    pub(crate) fn of(attributes: Attributes, content: Content) -> Result<Element, Node>
        requires known { attributes.tag ≢ Tag.Other }
        requires ruled { content.rule ≡ rule_of attributes.tag }
        requires apart { holds_dos attributes.tag ≡ true
            → AreDistinct (names_among true (suc content.room) content.items) }
        ensures made { IfOk result (λ element. element ≡ record {
          levels = suc content.room;
          node =
              record { tag = attributes.tag; attrs = attributes.rows; kids = content.items };
        }) }
        ensures back { IfErr result (λ node. node
            ≡ record { tag = attributes.tag; attrs = attributes.rows; kids = content.items }) }
        ensures whole { is_ok result ≡ has_needs content.rule
            (record { tag = attributes.tag; attrs = attributes.rows; kids = content.items }) }
        ensures inner { AllByRecursion (IsApart content.room) (filter_map node_of content.items) }
    {
        let Content {
            rule,
            room,
            items,
            ..
        } = content;
        let node = Node {
            tag: attributes.tag(),
            attrs: attributes.into_rows(),
            kids: items,
        };
        if has_needs(&rule, &node) {
            Ok(Element {
                levels: room + 1,
                node,
            })
        } else {
            Err(node)
        }
    }

    /// Which element it is.
    pub(crate) fn tag(&self) -> Tag
        ensures { result ≡ self.now.node.tag }
    {
        self.node.tag
    }

    /// What goes with it.
    pub(crate) fn lost(&self, alloc: Global) -> Result<Lost, NoMemory>
        ensures { IfOk result (λ lost.
            IsSame (load_lost lost) (given_node self.now.levels self.now.node)) }
    {
        Lost::of_node(alloc, self.levels, &self.node)
    }

    /// The element itself.
    pub(crate) fn into_node(self) -> Node
        ensures node { result ≡ self.node }
        ensures built { IsBuilt self.levels result }
    {
        let Element { node, .. } = self;
        node
    }
}

/// Content of an element, with elements of so many levels, neighbouring texts joined. A contract
/// sees the element's rule, the levels and what is in it.
#[derive(Drop)]
pub(crate) struct Content {
    rule: Rule,
    reached: usize,
    room: u32,
    items: Rows<Item>,
}

impl Model for Content {
    ghost use Rattle.std.specs.Coded.{codes};
    ghost use Rattle.wap_tokens.specs.contracts.markup.deck.Item as item;
    ghost use Rattle.wap_mend.specs.inside.Building.{Filled, IsFilled};

    ghost Value = { Filled };

    ghost coded = { Prim.hlevel (codes, item.the_row.coded) };

    ghost view = { λ content.
        record { rule = content.rule; room = content.room; items = content.items } };

    ghost invariant = { λ content.
        IsFilled content.rule content.reached content.room content.items };
}

impl Content {
    /// No content yet of an element of a tag, for elements of so many levels.
    #[tactic(auto, using(crate::proofs::Building::nothing_filled))]
    pub(crate) fn new(alloc: Global, tag: Tag, room: u32) -> Content
        requires { room < LEVEL_LIMIT }
        ensures { result ≡ record { rule = rule_of tag; room = room; items = [] } }
    {
        Content {
            rule: Rule::of(tag),
            reached: 0,
            room,
            items: Rows::new(alloc),
        }
    }

    /// The rule of the element.
    pub(crate) fn rule(&self) -> &Rule
        ensures { result.now ≡ self.now.rule }
    {
        &self.rule
    }

    /// How many levels its elements have.
    pub(crate) fn room(&self) -> u32
        ensures room { result ≡ self.now.room }
        ensures deep { result < LEVEL_LIMIT }
    {
        self.room
    }

    /// Whether there is none.
    pub(crate) fn is_empty(&self) -> bool
        ensures { IsTrue result ↔ (self.now.items ≡ []) }
    {
        self.items.is_empty()
    }

    /// Whether an element of a tag may stand behind what is there.
    pub(crate) fn accepts(&self, tag: Tag) -> bool
        ensures { result ≡ may_follow self.now.rule (tags_of self.now.items) tag }
    {
        let items = self.items.as_slice();
        self.rule.reach(self.reached, items, tag).is_some()
    }

    /// Whether an element may stand behind what is there, and has as many levels as there is room
    /// for.
    pub(crate) fn takes(&self, element: &Element) -> bool
        ensures { result ≡ (nat_eq element.now.levels self.now.room
            && may_follow self.now.rule (tags_of self.now.items) element.now.node.tag) }
    {
        element.levels == self.room && self.accepts(element.tag())
    }

    /// Adds a copy of a part of a text.
    #[tactic(auto, using(crate::proofs::Building::nothing_filled))]
    fn add_part(&mut self, alloc: Global, part: &Part) -> Result<(), NoMemory>
        requires text { self.old.rule.text ≡ true }
        requires part { IsPart part.now }
        ensures { OnOk result (self.new
            ≡ record self.old { items = part_after self.old.items part.now }) }
    {
        let copy = copied_part(alloc, part)?;
        let mut items = replace(&mut self.items, Rows::new(alloc));
        let reached = replace(&mut self.reached, 0);
        add_text(alloc, Some(copy), &mut items)?;
        self.items = items;
        self.reached = reached;
        Ok(())
    }

    /// Adds a copy of a text.
    pub(crate) fn add_text(&mut self, alloc: Global, parts: &[Part]) -> Result<(), NoMemory>
        requires text { self.old.rule.text ≡ true }
        requires parts { AllByRecursion IsPart parts.now }
        ensures { OnOk result (self.new
            ≡ record self.old { items = marks_after self.old.items (map part parts.now) }) }
    {
        for part in parts {
            self.add_part(alloc, part)?;
        }
        Ok(())
    }

    /// Adds an element, if it may stand there and has as many levels as there is room for.
    pub(crate) fn add(&mut self, element: Element) -> Result<bool, NoMemory>
        ensures taken { IfOk result (λ taken. taken ≡ (nat_eq element.levels self.old.room
            && may_follow self.old.rule (tags_of self.old.items) element.node.tag)) }
        ensures added { IfOk result (λ taken. self.new ≡ record self.old {
          items = if taken then self.old.items ++ item.Node element.node ∷ [] else self.old.items;
        }) }
    {
        let Element { levels, node } = element;
        if levels != self.room {
            return Ok(false);
        }
        let items = self.items.as_slice();
        let Some(reached) = self.rule.reach(self.reached, items, node.tag) else {
            return Ok(false);
        };
        self.items.add(Item::Node(node))?;
        self.reached = reached;
        Ok(true)
    }
}
