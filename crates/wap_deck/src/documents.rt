//! What parts of documents give in the decks that they mean.

mod attributes;
mod build;
mod pieces;
mod room;

pub use attributes::start_of;
pub use build::{add_text, tag_in};
pub use pieces::{add_any, begin_value, character, decode_part, literal, reference};
pub use room::rows_for;
pub use wap_tokens::markup::{AttrName, Deck, Item, Node, Tag};
