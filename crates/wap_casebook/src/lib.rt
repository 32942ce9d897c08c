//! Cases: how they are spelled, read, played and compared.
//!
//! - `files`: Files of cases, for the program that plays them: blocks of lines that say what a run
//!   begins with and what is wanted of it, decks as texts of WML, the devices of a run in memory,
//!   and in what a run or a call differs from what is wanted.
#![tactic(auto)]

mod call;
mod fault;
pub mod files;
mod items;
mod pieces;
mod quotes;
mod spelling;
mod tally;
mod words;

pub use call::{Call, meaning_of};
pub use fault::CaseFault;
pub use pieces::Pieces;
pub use spelling::{spelled_bytes, spelled_text};
pub use tally::Tally;
pub use words::{number, range, split_by, split_value, split_word, text};
