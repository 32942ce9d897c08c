//! Decks as indented text, the way to an element by its names, and what of a deck isn't good, in
//! words.

mod earlier;
mod faults;
mod names;
mod order;
mod texts;
mod tree;
mod values;
mod way;

pub(crate) use faults::add_deck_fault;
pub(crate) use names::{last_path, name_of_tag, node_at, plain_value};
pub(crate) use texts::Parts;
pub(crate) use tree::add_deck;
