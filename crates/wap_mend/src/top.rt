//! The root that is being put together: a head and a template at most, and cards, whose ids stand
//! once.
ghost use Rattle.std.specs.Prelude.{◌≡◌, ◌-◌, ◌++◌, [], ◌↔◌, true, false, Some, None};
ghost use Rattle.std.specs.Prelude.{IsTrue, IfOk, IfSome, OnOk};
ghost use Rattle.std.specs.Option.{option_to_list};
ghost use Rattle.std.specs.List.{AllByRecursion};
ghost use Rattle.wap_tokens.specs.markup.Trees.{if_tagged};
ghost use Rattle.wap_tokens.specs.markup.Good.{rule_of, may_follow, tags_of};
ghost use Rattle.wap_deckcheck.specs.Places.{own_id};
ghost use Rattle.wap_mend.specs.inside.Tops.{IsUnder, items_with, items_in, own_id_of, AreTaken};
ghost use Rattle.wap_mend.specs.inside.Tops.{IsTop, Gathers, load_top};
ghost use Rattle.wap_mend.specs.inside.Frames.{nothing, load_built, rows_load, IsStill, Keeps};

use crate::apart::text_of;
use crate::change::What;
use crate::content::{Content, Element};
use crate::kept::Attributes;
use crate::names::Names;
use crate::notes::Notes;
use std::alloc::Global;
use std::marker::Model;
use wap_base::{NoMemory, Rows, Text};
use wap_tokens::markup::{AttrName, LEVEL_LIMIT, Tag};

/// What stands in the root so far. A contract sees that, and the ids that are taken.
#[derive(Drop)]
pub(crate) struct Top {
    head: Option<Element>,
    template: Option<Element>,
    cards: Rows<Element>,
    /// The ids of the cards.
    ids: Names,
}

impl Model for Top {
    ghost use Rattle.std.specs.Coded.{codes};
    ghost use Rattle.wap_tokens.specs.contracts.markup.deck.Item as item;
    ghost use Rattle.wap_mend.specs.inside.Tops.{Topped, IsTop};

    ghost Value = { Topped };

    ghost coded = { Prim.hlevel (codes, item.the_row.coded) };

    ghost view = { λ top. record {
      head = top.head;
      template = top.template;
      cards = top.cards;
      ids = top.ids;
    } };

    ghost invariant = { λ top. IsTop (record {
      head = top.head;
      template = top.template;
      cards = top.cards;
      ids = top.ids;
    }) };
}

/// The id of a card, as a copy; another element has none.
fn id_of_card(alloc: Global, attributes: &Attributes) -> Result<Option<Text>, NoMemory>
    ensures { IfOk result (λ id. id ≡ own_id_of attributes.now) }
{
    if attributes.tag() != Tag::Card {
        return Ok(None);
    }
    match attributes.value_of(AttrName::Id) {
        Some(id) => text_of(alloc, id.as_slice()),
        None => Ok(None),
    }
}

/// Adds an element, if there is one.
fn add_if(content: &mut Content, element: Option<Element>) -> Result<(), NoMemory>
    requires levels { IfSome element (λ one. one.levels ≡ content.old.room) }
    requires follows { IfSome element (λ one.
        may_follow content.old.rule (tags_of content.old.items) one.node.tag ≡ true) }
    ensures { OnOk result (content.new ≡ record content.old {
      items = content.old.items ++ items_with (option_to_list element);
    }) }
{
    if let Some(element) = element {
        content.add(element)?;
    }
    Ok(())
}

/// Adds cards to the root.
fn add_cards(content: &mut Content, cards: Rows<Element>) -> Result<(), NoMemory>
    requires rule { content.old.rule ≡ rule_of Tag.Wml }
    requires room { content.old.room ≡ LEVEL_LIMIT - 1 }
    requires cards { AllByRecursion (IsUnder Tag.Card) cards }
    requires follows { may_follow (rule_of Tag.Wml) (tags_of content.old.items) Tag.Card ≡ true }
    ensures { OnOk result (content.new
        ≡ record content.old { items = content.old.items ++ items_with cards }) }
{
    for card in cards.into_vec() {
        content.add(card)?;
    }
    Ok(())
}

impl Top {
    /// Nothing yet.
    #[tactic(auto, using(crate::proofs::Topping::nothing_topped))]
    pub(crate) fn new(alloc: Global) -> Top
        ensures { result ≡ record { head = None; template = None; cards = []; ids = [] } }
    {
        Top {
            head: None,
            template: None,
            cards: Rows::new(alloc),
            ids: Names::new(alloc),
        }
    }

    /// Whether there is no card.
    pub(crate) fn is_empty(&self) -> bool
        ensures { IsTrue result ↔ (self.now.cards ≡ []) }
    {
        self.cards.is_empty()
    }

    /// Whether an element of a tag is one of those of which there may be one, and there is one.
    pub(crate) fn is_second(&self, tag: Tag) -> bool
        ensures { tag ≡ Tag.Card → result ≡ false }
    {
        match tag {
            Tag::Head => self.head.is_some(),
            Tag::Template => self.template.is_some(),
            _ => false,
        }
    }

    /// Whether an element of a tag comes behind one before which it has to stand.
    fn is_late(&self, tag: Tag) -> bool {
        match tag {
            Tag::Head => self.template.is_some() || !self.cards.is_empty(),
            Tag::Template => !self.cards.is_empty(),
            _ => false,
        }
    }

    /// The attributes of an element, its id taken if it is a card: without it, if it is taken
    /// already (rule 6).
    pub(crate) fn told_apart(
        &mut self,
        alloc: Global,
        notes: &mut Notes,
        attributes: Attributes,
    ) -> Result<Attributes, NoMemory>
        requires { AreTaken self.old None }
        ensures tag { IfOk result (λ told. told.tag ≡ attributes.tag) }
        ensures cards { OnOk result (self.new.cards ≡ self.old.cards) }
        ensures same { OnOk result (load_top self.new ≡ load_top self.old) }
        ensures keeps { IfOk result (λ told. Keeps notes.old.changes notes.new.changes nothing
            (rows_load told.tag told.rows) (rows_load attributes.tag attributes.rows)) }
        ensures taken { IfOk result (λ told. AreTaken self.new (own_id_of told)) }
    {
        let Some(id) = id_of_card(alloc, &attributes)? else {
            return Ok(attributes);
        };
        if !self.ids.take(alloc, &id)? {
            return Ok(attributes);
        }
        let lost = attributes.lost_of(alloc, AttrName::Id)?;
        notes.note_lost(alloc, What::Id, lost)?;
        attributes.copy_without(alloc, AttrName::Id)
    }

    /// Notes an element of a tag that comes behind one before which it has to stand (rule 7).
    fn note_late(&self, alloc: Global, notes: &mut Notes, tag: Tag) -> Result<(), NoMemory>
        ensures { OnOk result (IsStill notes.old.changes notes.new.changes) }
    {
        if self.is_late(tag) {
            return notes.note(alloc, What::Moved(tag));
        }
        Ok(())
    }

    /// Adds an element at its place, before those that come later (rule 7), if there isn't one of
    /// its sort of which there may be one.
    pub(crate) fn add(
        &mut self,
        alloc: Global,
        notes: &mut Notes,
        element: Element,
    ) -> Result<(), NoMemory>
        requires levels { element.levels ≡ LEVEL_LIMIT - 1 }
        requires taken { AreTaken self.old (own_id element.node) }
        ensures gathers { OnOk result (Gathers self.old self.new
            (option_to_list (if_tagged Tag.Card (Some element.node)))) }
        ensures keeps { OnOk result (Keeps notes.old.changes notes.new.changes
            (load_top self.old) (load_top self.new) (load_built element)) }
    {
        let tag = element.tag();
        self.note_late(alloc, notes, tag)?;
        match tag {
            Tag::Head if self.head.is_none() => self.head = Some(element),
            Tag::Template if self.template.is_none() => self.template = Some(element),
            Tag::Card => self.cards.add(element)?,
            _ => {
                let lost = element.lost(alloc)?;
                notes.note_lost(alloc, What::Gone(tag), lost)?;
            }
        }
        Ok(())
    }

    /// What stands in the root, in its order.
    pub(crate) fn close(self, alloc: Global) -> Result<Content, NoMemory>
        ensures closed { IfOk result (λ content. content ≡ record {
          rule = rule_of Tag.Wml;
          room = LEVEL_LIMIT - 1;
          items = items_in self;
        }) }
        ensures kinds { IsTop self }
    {
        let Top {
            head,
            template,
            cards,
            ..
        } = self;
        let mut content = Content::new(alloc, Tag::Wml, LEVEL_LIMIT - 1);
        add_if(&mut content, head)?;
        add_if(&mut content, template)?;
        add_cards(&mut content, cards)?;
        Ok(content)
    }
}
