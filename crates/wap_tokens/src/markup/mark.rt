//! What the bytes of a document's body say: what stands after each of them.
use wap_base::{Bytes, Conv, Text};

/// The byte that says what an item is, and the page of codes on which it stands.
#[derive(Clone, Copy)]
pub struct Lead {
    /// Whether a switch to the page stands before the byte.
    pub switched: bool,
    /// The page that counts for the byte.
    pub page: u8,
    /// The byte, after the switch if there is one.
    pub byte: u8,
}

/// What a string stands for.
#[derive(Clone, Copy)]
pub enum Role {
    /// Itself: it is a part of a text or of a value.
    Shown,
    /// A reference to the variable of this name.
    Variable(Conv),
}

/// What a byte says that means the same in content and in the value of an attribute.
#[derive(Clone, Copy)]
pub enum LeafMark {
    /// A string stands after it.
    Inline(Role),
    /// The index of a string in the string table stands after it.
    Indexed(Role),
    /// The number of a character stands after it.
    Entity,
    /// So many bytes stand after it.
    Opaque,
    /// An extension by its number, 0, 1 or 2; nothing stands after it.
    Extension(u8),
}

/// What a byte says in content.
#[derive(Clone, Copy)]
pub enum ContentMark {
    /// The content ends.
    End,
    /// An element begins, and this is its tag.
    Element,
    /// A processing instruction begins.
    Pi,
    /// What means the same in content and in values.
    Leaf(LeafMark),
    /// Nothing that can stand here.
    Nothing,
}

/// What a byte says in attributes.
#[derive(Clone, Copy)]
pub enum AttributeMark {
    /// The attributes end.
    End,
    /// An attribute, its start by a code.
    Coded,
    /// An attribute, its start by a name of the string table.
    Named,
    /// A part of a value by a code.
    Value,
    /// What means the same in content and in values.
    Leaf(LeafMark),
    /// Nothing that can stand here.
    Nothing,
}

/// What stands in content and in the value of an attribute alike.
#[derive(Drop)]
pub enum Leaf {
    /// A string.
    Str(Text),
    /// A character by its number.
    Entity(u32),
    /// A reference to a variable.
    Var(Text, Conv),
    /// An extension without a value.
    Ext(u8),
    /// Bytes that aren't looked at.
    Opaque(Bytes),
}

/// The document type that is read.
#[derive(Clone, Copy)]
pub enum DocumentType {
    /// WML, of any of its versions.
    Wml,
    /// The one whose public identifier has this number. Its name isn't read.
    Other(u32),
}

/// A public identifier.
#[derive(Clone, Copy)]
pub enum Identifier {
    /// By its number.
    Numbered(u32),
    /// By the index of its name in the string table.
    Named(u32),
}
