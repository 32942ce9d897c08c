//! The commands on saved contexts: a context is saved where its keys end, and keys go on from one
//! that was saved.

mod decks;
mod imaging;
mod law;
mod loading;
mod nowhere;
mod resuming;
mod saving;

pub use imaging::image;
pub use law::saved_sessions_go_on;
pub use resuming::resume;
