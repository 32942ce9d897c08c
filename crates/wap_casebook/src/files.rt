//! Files of cases, for the program that plays them: blocks of lines that say what a run begins with
//! and what is wanted of it, decks as texts of WML, the devices of a run in memory, and in what a
//! run or a call differs from what is wanted.

mod case;
mod lines;
mod memory;
mod numbers;
mod outcome;
mod playing;
mod telling;
mod wml;

pub use case::Case;
pub use outcome::Outcome;
pub use playing::{Played, Reading};
pub use telling::Told;
