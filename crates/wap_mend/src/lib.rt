//! Decks that aren't good, made into good ones, and what was changed. The rules are those of
//! docs/PAGES.md, by their numbers there.
#![tactic(auto)]

mod apart;
mod attributes;
mod change;
mod content;
mod elements;
mod frame;
mod identifier;
mod kept;
mod losses;
mod mending;
mod names;
mod needs;
mod notes;
mod pages;
mod root;
mod spellings;
mod top;
mod values;

pub use change::{Attribute, Change, Lost, What};
pub use mending::MendFault;
pub use pages::{MendedPage, mend_page};
