//! Documents that are kept as they are read.
ghost use Rattle.wap_wbxml.specs.reading.inside.DocumentParts.{document_parts};

use crate::builder::Builder;
use crate::leaves::{kid, piece};
use std::alloc::Global;
use wap_base::{NoMemory, Rows};
use wap_tokens::markup::{Attr, Document, Element, Kid, Leaf, Piece, Token};

/// Each part is kept as it is.
pub(crate) struct Documents;

impl Builder for Documents {
    type Tag = (u8, Token);

    type Attribute = Attr;

    type Attributes = Rows<Attr>;

    type Content = Rows<Kid>;

    type Node = Element;

    type Whole = Document;

    ghost makes = { document_parts };

    fn tag(page: u8, token: Token) -> Option<(u8, Token)> {
        Some((page, token))
    }

    fn root_tag(page: u8, token: Token) -> (u8, Token) {
        (page, token)
    }

    fn attribute(alloc: Global, page: u8, start: Token) -> Result<Attr, NoMemory> {
        Ok(Attr {
            page,
            start,
            value: Rows::new(alloc),
        })
    }

    fn add_code(_alloc: Global, attribute: &mut Attr, page: u8, code: u8) -> Result<(), NoMemory> {
        attribute.value.add(Piece::Code(page, code))
    }

    fn add_piece(_alloc: Global, attribute: &mut Attr, leaf: Leaf) -> Result<(), NoMemory> {
        attribute.value.add(piece(leaf))
    }

    fn attributes(alloc: Global, _some: bool) -> Result<Rows<Attr>, NoMemory> {
        Ok(Rows::new(alloc))
    }

    fn add_attribute(
        _alloc: Global,
        attributes: &mut Rows<Attr>,
        attribute: Attr,
    ) -> Result<(), NoMemory> {
        attributes.add(attribute)
    }

    fn content(alloc: Global, _some: bool) -> Result<Rows<Kid>, NoMemory> {
        Ok(Rows::new(alloc))
    }

    fn add_leaf(_alloc: Global, content: &mut Rows<Kid>, leaf: Leaf) -> Result<(), NoMemory> {
        content.add(kid(leaf))
    }

    fn add_instruction(
        _alloc: Global,
        content: &mut Rows<Kid>,
        instruction: Attr,
    ) -> Result<(), NoMemory> {
        content.add(Kid::Pi(instruction))
    }

    fn node(tag: (u8, Token), attributes: Rows<Attr>, content: Rows<Kid>) -> Element {
        Element {
            page: tag.0,
            tag: tag.1,
            attrs: attributes,
            kids: content,
        }
    }

    fn add_node(_alloc: Global, content: &mut Rows<Kid>, node: Element) -> Result<(), NoMemory> {
        content.add(Kid::Element(node))
    }

    fn whole(version: u8, public: u32, charset: u32, root: Element) -> Document {
        Document {
            version,
            public,
            charset,
            root,
        }
    }
}
