//! What the cards of a deck mean: their tasks, fields, events, timers and what they show, as
//! definitions in `specs/`. There is no code here but the types that those and the crates above
//! share.
#![tactic(auto)]

mod answers;
mod event;
mod task;

pub use answers::{Chosen, Entered};
pub use event::Event;
pub use task::{Go, Task};
