//! How decks are written as WBXML (WAP-192, section 5), without their documents.

mod attributes;
mod decks;
mod laws;
mod names;
mod nodes;
mod runs;
mod texts;

pub use decks::spell;
pub use laws::{rewritten_is_read, written_decks_are_meant};
