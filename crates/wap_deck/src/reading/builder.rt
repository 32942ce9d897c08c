//! Decks as what is made of documents while they are read: elements and attributes that have names,
//! their texts and their references to variables.
ghost use Rattle.std.specs.Prelude.{◌≡◌, [], IfOk};
ghost use Rattle.wap_tokens.specs.markup.Decks.{piece_part};
ghost use Rattle.wap_tokens.specs.markup.Grammar.{piece_of};
ghost use Rattle.wap_deck.specs.reading.inside.DeckParts.{deck_parts};

use crate::documents::{
    add_any, add_text, begin_value, character, decode_part, literal, reference, rows_for, start_of,
    tag_in,
};
use crate::reading::rows::add_to_few;
use std::alloc::Global;
use wap_base::{NoMemory, Part, Rows};
use wap_tokens::markup::{AttrName, Deck, Item, Leaf, Node, Tag, Token};
use wap_wbxml::Builder;

/// The part that a string, a character or a reference gives. What else there may be gives none.
fn part_of(alloc: Global, leaf: Leaf) -> Result<Option<Part>, NoMemory>
    ensures { IfOk result (λ part. part ≡ piece_part (piece_of leaf)) }
{
    match leaf {
        Leaf::Str(text) => Ok(literal(text)),
        Leaf::Entity(number) => character(alloc, number),
        Leaf::Var(name, conv) => reference(alloc, &name, conv),
        Leaf::Ext(_) | Leaf::Opaque(_) => Ok(None),
    }
}

/// No items yet, and room for one where there may be some.
fn rows_when<T>(alloc: Global, some: bool) -> Result<Rows<T>, NoMemory>
    ensures { IfOk result (λ rows. rows ≡ []) }
{
    if some {
        return rows_for(alloc, 1);
    }
    Ok(Rows::new(alloc))
}

/// What a document means is made of it.
pub(crate) struct Decks;

impl Builder for Decks {
    type Tag = Tag;

    type Attribute = Option<(AttrName, Rows<Part>)>;

    type Attributes = Rows<(AttrName, Rows<Part>)>;

    type Content = Rows<Item>;

    type Node = Node;

    type Whole = Deck;

    ghost makes = { deck_parts };

    fn tag(page: u8, token: Token) -> Option<Tag> {
        tag_in(page, &token)
    }

    fn root_tag(page: u8, token: Token) -> Tag {
        tag_in(page, &token).unwrap_or(Tag::Other)
    }

    #[inline(always)]
    fn attribute(
        alloc: Global,
        page: u8,
        start: Token,
    ) -> Result<Option<(AttrName, Rows<Part>)>, NoMemory> {
        match start_of(page, &start) {
            Some((name, text)) => Ok(Some((name, begin_value(alloc, text)?))),
            None => Ok(None),
        }
    }

    #[inline(always)]
    fn add_code(
        alloc: Global,
        attribute: &mut Option<(AttrName, Rows<Part>)>,
        page: u8,
        code: u8,
    ) -> Result<(), NoMemory> {
        match attribute {
            Some(known) => add_any(&mut known.1, decode_part(alloc, page, code)?),
            None => Ok(()),
        }
    }

    #[inline(always)]
    fn add_piece(
        alloc: Global,
        attribute: &mut Option<(AttrName, Rows<Part>)>,
        leaf: Leaf,
    ) -> Result<(), NoMemory> {
        match attribute {
            Some(known) => add_any(&mut known.1, part_of(alloc, leaf)?),
            None => Ok(()),
        }
    }

    fn attributes(alloc: Global, some: bool) -> Result<Rows<(AttrName, Rows<Part>)>, NoMemory> {
        rows_when(alloc, some)
    }

    #[inline(always)]
    fn add_attribute(
        alloc: Global,
        attributes: &mut Rows<(AttrName, Rows<Part>)>,
        attribute: Option<(AttrName, Rows<Part>)>,
    ) -> Result<(), NoMemory> {
        match attribute {
            Some(known) => add_to_few(alloc, attributes, known),
            None => Ok(()),
        }
    }

    fn content(alloc: Global, some: bool) -> Result<Rows<Item>, NoMemory> {
        rows_when(alloc, some)
    }

    fn add_leaf(alloc: Global, content: &mut Rows<Item>, leaf: Leaf) -> Result<(), NoMemory> {
        add_text(alloc, part_of(alloc, leaf)?, content)
    }

    fn add_instruction(
        _alloc: Global,
        _content: &mut Rows<Item>,
        _instruction: Option<(AttrName, Rows<Part>)>,
    ) -> Result<(), NoMemory> {
        Ok(())
    }

    fn node(tag: Tag, attributes: Rows<(AttrName, Rows<Part>)>, content: Rows<Item>) -> Node {
        Node {
            tag,
            attrs: attributes,
            kids: content,
        }
    }

    fn add_node(alloc: Global, content: &mut Rows<Item>, node: Node) -> Result<(), NoMemory> {
        add_to_few(alloc, content, Item::Node(node))
    }

    fn whole(_version: u8, _public: u32, _charset: u32, root: Node) -> Deck {
        Deck { root }
    }
}
