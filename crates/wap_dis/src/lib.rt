//! The listing of a compiled unit.
#![tactic(auto)]

mod held;
mod laws;
mod lines;
mod listed;
mod names;
mod word;

pub use laws::code_is_split_as_far_as_it_goes;
pub use listed::listing;
