//! What is made of a document while it is read.
ghost use Rattle.std.specs.Prelude.{◌≡◌, IfOk, OnOk};
ghost use Rattle.wap_tokens.specs.declared.markup.document.Piece.TheVariants as piece;
ghost use Rattle.wap_tokens.specs.markup.Grammar.{piece_of};
ghost use Rattle.wap_wbxml.specs.reading.Making.{Makes};

use std::alloc::Global;
use wap_base::NoMemory;
use wap_tokens::markup::{Leaf, Token};

/// What is made of a document, part by part, as it is read from the left.
pub trait Builder {
    /// What is known of an element by its tag.
    type Tag: Drop;
    /// What is made of an attribute.
    type Attribute: Drop;
    /// What is made of attributes.
    type Attributes: Drop;
    /// What is made of content.
    type Content: Drop;
    /// What is made of an element.
    type Node: Drop;
    /// What is made of a document.
    type Whole: Drop;

    /// What these are, part by part.
    ghost makes: { Makes Self.Tag Self.Attribute Self.Attributes Self.Content Self.Node
        Self.Whole };

    /// The tag of an element, if it is known; another one stands for its content.
    fn tag(page: u8, token: Token) -> Option<Self::Tag>
        ensures { result ≡ makes.tag page token };

    /// The tag of a root, which always is one.
    fn root_tag(page: u8, token: Token) -> Self::Tag
        ensures { result ≡ makes.root_tag page token };

    /// An attribute of this start, with no part of a value yet.
    fn attribute(alloc: Global, page: u8, start: Token) -> Result<Self::Attribute, NoMemory>
        ensures { IfOk result (λ attribute. attribute ≡ makes.attribute page start) };

    /// Adds a code to the value of an attribute.
    fn add_code(
        alloc: Global,
        attribute: &mut Self::Attribute,
        page: u8,
        code: u8,
    ) -> Result<(), NoMemory>
        ensures { OnOk result
            (attribute.new ≡ makes.piece_added attribute.old (piece.Code page code)) };

    /// Adds another part to the value of an attribute.
    fn add_piece(alloc: Global, attribute: &mut Self::Attribute, leaf: Leaf) -> Result<(), NoMemory>
        ensures { OnOk result
            (attribute.new ≡ makes.piece_added attribute.old (piece_of leaf)) };

    /// No attributes yet; `some` says that there may be some.
    fn attributes(alloc: Global, some: bool) -> Result<Self::Attributes, NoMemory>
        ensures { IfOk result (λ attributes. attributes ≡ makes.no_attributes) };

    /// Adds an attribute.
    fn add_attribute(
        alloc: Global,
        attributes: &mut Self::Attributes,
        attribute: Self::Attribute,
    ) -> Result<(), NoMemory>
        ensures { OnOk result (attributes.new ≡ makes.attribute_added attributes.old attribute) };

    /// No content yet; `some` says that there may be some.
    fn content(alloc: Global, some: bool) -> Result<Self::Content, NoMemory>
        ensures { IfOk result (λ content. content ≡ makes.no_content) };

    /// Adds a string, a character, a reference, an extension or opaque data.
    fn add_leaf(alloc: Global, content: &mut Self::Content, leaf: Leaf) -> Result<(), NoMemory>
        ensures { OnOk result (content.new ≡ makes.leaf_added content.old leaf) };

    /// Adds a processing instruction.
    fn add_instruction(
        alloc: Global,
        content: &mut Self::Content,
        instruction: Self::Attribute,
    ) -> Result<(), NoMemory>
        ensures { OnOk result (content.new ≡ makes.instruction_added content.old instruction) };

    /// An element of these parts.
    fn node(tag: Self::Tag, attributes: Self::Attributes, content: Self::Content) -> Self::Node
        ensures { result ≡ makes.node tag attributes content };

    /// Adds an element.
    fn add_node(
        alloc: Global,
        content: &mut Self::Content,
        node: Self::Node,
    ) -> Result<(), NoMemory>
        ensures { OnOk result (content.new ≡ makes.node_added content.old node) };

    /// A document of these parts.
    fn whole(version: u8, public: u32, charset: u32, root: Self::Node) -> Self::Whole
        ensures { result ≡ makes.whole version public charset root };
}
