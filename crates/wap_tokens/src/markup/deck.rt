//! Decks as WML means them (WAP-191, section 11): known tags and attributes alone, texts joined.
use crate::markup::name::{AttrName, Tag};
use wap_base::{Part, Rows};

/// A deck of cards.
#[derive(Drop)]
pub struct Deck {
    /// The `wml` element.
    pub root: Node,
}

/// An element of a deck: its attributes in the order of the document, and its content.
#[cycle(node)]
#[derive(Drop)]
pub struct Node {
    /// Which element it is.
    pub tag: Tag,
    /// Its attributes with their values; the first of a name counts.
    pub attrs: Rows<(AttrName, Rows<Part>)>,
    /// Its texts and elements, in the order of the document.
    pub kids: Rows<Item>,
}

/// A part of a node's content.
#[cycle(node)]
#[derive(Drop)]
pub enum Item {
    /// A text, by its literals and its references to variables.
    Text(Rows<Part>),
    /// An element.
    Node(Node),
}
