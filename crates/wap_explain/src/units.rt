//! Compiled units: their listing with notes, and why one is refused or may not be run.

mod faults;
mod listing;
mod notes;
mod words;

pub(crate) use faults::{add_unit_fault, add_verify_fault};
pub(crate) use listing::add_unit;
