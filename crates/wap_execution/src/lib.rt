//! What instructions do, and what runs come to, as definitions in `specs/`.
//!
//! - `laws`: What follows for runs of compiled units. It runs nothing.
#![tactic(auto)]

mod action;
mod dialog;
mod fatal;
mod found;
pub mod laws;
mod library;

pub use action::Action;
pub use dialog::Dialog;
pub use fatal::Fatal;
pub use found::Found;
pub use library::HostOut;
