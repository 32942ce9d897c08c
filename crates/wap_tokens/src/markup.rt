//! The types of documents, as WBXML spells them, and of decks, as WML means them; the tables of
//! WML's names and codes.

mod codes;
mod deck;
mod document;
mod mark;
mod name;
mod rules;
mod tables;

pub use codes::{
    CHARSET, END, ENTITY, EXT_0, EXT_1, EXT_2, EXT_I_0, EXT_I_1, EXT_I_2, EXT_T_0, EXT_T_1,
    EXT_T_2, LITERAL, OPAQUE, PI, STR_I, STR_T, SWITCH_PAGE, VERSION, WML_1_1, WML_1_2, WML_1_3,
};
pub use deck::{Deck, Item, Node};
pub use document::{Attr, Document, Element, Kid, LEVEL_LIMIT, Piece, Token};
pub use mark::{AttributeMark, ContentMark, DocumentType, Identifier, Lead, Leaf, LeafMark, Role};
pub use name::{AttrName, Tag};
pub use rules::RULES;
pub use tables::{ATTR_NAMES, ATTR_STARTS, ATTR_VALUES, TAGS};
