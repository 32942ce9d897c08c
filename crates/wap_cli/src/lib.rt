//! Commands, over any store, source and sink, and how they end: those on one page, a report on a
//! folder, a session whose keys are read and played, many side by side, one that is saved and gone
//! on with, and a made folder.
//!
//! - `inspect`: What the commands on one page write.
//! - `prepare`: The report on a folder, whose pages are judged side by side.
//! - `browse`: Browsing: a session with an inbox whose keys are read and played one after the
//!   other.
//! - `prepared`: Judged pages that many sessions share.
//! - `replay`: Lists of keys, each played by a session of its own over the same pages, side by
//!   side.
//! - `saving`: Images of contexts: saving what a context keeps at rest.
//! - `resume`: The commands on saved contexts: a context is saved where its keys end, and keys go
//!   on from one that was saved.
//! - `resume_laws`: What follows from the definitions of images for the pages of stores. It runs
//!   nothing.
//! - `made`: Browsing a made folder, and the lines on what came of it.
#![tactic(auto)]

pub mod browse;
mod browsing;
mod commands;
mod here;
pub mod inspect;
mod laws;
pub mod made;
mod pages;
pub mod prepare;
pub mod prepared;
pub mod replay;
mod replaying;
pub mod resume;
pub mod resume_laws;
mod saved;
pub mod saving;
mod status;

pub use commands::run;
pub use here::{Ended, run_here};
pub use laws::{calls_are_read_one_way, held_devices_are_browsed_exactly};
pub use status::Status;
