//! What is changed of a deck.
use wap_base::{Part, Rows, Text};
use wap_tokens::markup::{AttrName, Tag};

/// An attribute of an element of a tag, with its value.
pub type Attribute = (Tag, AttrName, Rows<Part>);

/// What goes with a change.
#[derive(Drop)]
pub struct Lost {
    /// Texts, by their parts.
    pub texts: Rows<Part>,
    /// Elements, by their tags.
    pub elements: Rows<Tag>,
    /// Attributes of elements.
    pub attributes: Rows<Attribute>,
}

/// A change of a deck. The path leads to where it was made in the deck that was given, by the
/// numbers of children, from 0, texts included; the empty path is the root's.
#[derive(Drop)]
pub struct Change {
    pub path: Rows<usize>,
    pub what: What,
    /// What goes with it.
    pub lost: Lost,
    /// The attributes that come with it.
    pub came: Rows<Attribute>,
}

/// What is changed.
#[derive(Drop)]
pub enum What {
    /// The document's identifier becomes that of WML 1.3.
    Identifier,
    /// The root isn't wml, and becomes it.
    Root(Tag),
    /// The element may not stand there: what is in it takes its place.
    Opened(Tag),
    /// The text may not stand there: it goes.
    Text,
    /// A paragraph is put round what stands from here on.
    Wrapped,
    /// The paragraph ends the one in which it stands, which goes on after it.
    Parted(Tag),
    /// The attribute may not have its value, or stands twice: it goes.
    Attribute(AttrName),
    /// The attribute's value is put in lower case.
    Lowered(AttrName),
    /// The element lacks what it can't do without: what is in it takes its place.
    Lacking(Tag),
    /// The id is that of an earlier card: it goes.
    Id,
    /// The do has the name of an earlier one, and gets this one.
    Named(Text),
    /// There is one of its sort already: it goes, with all that is in it.
    Second(Tag),
    /// It is moved to its place, before what it stands after.
    Moved(Tag),
    /// The deck is put together anew, though no rule names a change.
    Anew,
    /// It would stand too deep, or nothing is left of what it can't do without: it goes, with all
    /// that is in it.
    Gone(Tag),
}
