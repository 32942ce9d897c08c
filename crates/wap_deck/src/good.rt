//! Good decks, kept as the bytes that spell them, and the views through which they are read.

mod attrs;
mod bits;
mod cards;
mod children;
mod front;
mod good;
mod hashes;
mod head;
mod heads;
mod kids;
mod laws;
mod notes;
mod run;
mod skip;
mod view;
mod walk;

pub use bits::Bit;
pub use good::GoodDeck;
pub use kids::{Child, Kids};
pub use run::Run;
pub use view::View;
pub use walk::{has_reference, holds_tagged};
pub use wap_tokens::markup::{AttrName, Deck, Tag};
