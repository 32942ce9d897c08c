//! Saved contexts: their parts, and their bytes, written and read.
//!
//! - `context_parts`: The parts of a context that is saved, and why they aren't written or read.
#![tactic(auto)]

pub mod context_parts;
mod entries;
mod items;
mod kind;
mod knowing;
mod laws;
mod limits;
mod printing;
mod reading;
mod short;
mod steps;
mod texts;
mod timer;
mod variables;
mod writing;

pub use laws::{
    no_bytes_have_two_faults, no_bytes_have_two_images, no_image_has_a_fault,
    what_is_no_image_has_a_fault,
};
pub use printing::{print_image_fault, print_save_fault};
pub use reading::read;
pub use writing::save_parts;
