//! Documents as WBXML spells them (WAP-192, section 5): numbers and names, strings of the string
//! table resolved, nothing yet of what they mean.
use wap_base::{Bytes, Conv, Rows, Text};

/// The most levels that the elements of a document have, the root's being the first. This limit is
/// this project's own.
pub const LEVEL_LIMIT: u32 = 64;

/// A document.
#[derive(Drop)]
pub struct Document {
    /// The version byte: the major number minus one, and the minor number, in four bits each.
    pub version: u8,
    /// The number of the public identifier.
    pub public: u32,
    /// The number of the character set, as IANA counts them (MIBenum).
    pub charset: u32,
    /// The element that holds all others.
    pub root: Element,
}

/// The name of a tag or of an attribute.
#[derive(Drop)]
pub enum Token {
    /// A code of the page on which it stands, without the bits that say what follows.
    Code(u8),
    /// A name that the string table spells.
    Literal(Text),
}

/// An element, its tag on a page of codes.
#[cycle(tree)]
#[derive(Drop)]
pub struct Element {
    /// The page of codes on which its tag stands.
    pub page: u8,
    /// Which element it is.
    pub tag: Token,
    /// Its attributes, in the order of the document.
    pub attrs: Rows<Attr>,
    /// Its content, in the order of the document.
    pub kids: Rows<Kid>,
}

/// An attribute, or a processing instruction, its start on a page of codes.
#[derive(Drop)]
pub struct Attr {
    /// The page of codes on which its start stands.
    pub page: u8,
    /// Its name; a code may stand for the beginning of a value too.
    pub start: Token,
    /// The parts of its value, or of what follows the beginning.
    pub value: Rows<Piece>,
}

/// A part of an attribute's value.
#[derive(Drop)]
pub enum Piece {
    /// A page, and a code of it.
    Code(u8, u8),
    /// A string.
    Str(Text),
    /// A character by its number.
    Entity(u32),
    /// A reference to a variable.
    Var(Text, Conv),
    /// An extension without a value.
    Ext(u8),
    /// Bytes that aren't looked at.
    Opaque(Bytes),
}

/// A part of an element's content.
#[cycle(tree)]
#[derive(Drop)]
pub enum Kid {
    /// An element in the content.
    Element(Element),
    /// A string.
    Str(Text),
    /// A character by its number.
    Entity(u32),
    /// A reference to a variable.
    Var(Text, Conv),
    /// An extension without a value.
    Ext(u8),
    /// Bytes that aren't looked at.
    Opaque(Bytes),
    /// A processing instruction.
    Pi(Attr),
}
