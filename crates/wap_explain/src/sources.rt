//! Sources of scripts: lines with a mark, and what is known at the place.

mod declared;
mod expected;
mod faults;
mod known;
mod lines;
mod places;
mod rules;
mod scopes;
mod syntax;
mod words;

pub(crate) use faults::add_source_fault;
pub(crate) use lines::{add_all_lines, add_text_fault};
