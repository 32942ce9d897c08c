//! Bytes read as the decks that they mean, without their documents.

mod builder;
mod decks;
mod rows;

pub use decks::read_deck;
