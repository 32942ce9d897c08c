//! Lines: flows of words and breaks laid out on them, and lines in one buffer as they are written.
//!
//! - `buffer`: Lines of text in one buffer, as they are written.
#![tactic(auto)]

pub mod buffer;
mod fill;
mod first;
mod flow;
pub mod laws;
mod layout;
mod page;
mod words;

pub use flow::{Flow, Mode};
pub use layout::lines;
