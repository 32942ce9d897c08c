//! Made folders: for each number decks that lead to one another through a script.
#![tactic(auto)]

mod decks;
mod folder;
mod texts;

pub use folder::folder_of;
