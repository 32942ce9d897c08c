//! The parts of a context that is saved, and why they aren't written or read. There is no code here
//! but types.

mod fault;
mod parts;

pub use fault::{ImageFault, SaveFault};
pub use parts::{ContextParts, SavedTimer};
