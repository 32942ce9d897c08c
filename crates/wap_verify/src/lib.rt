//! Which units may be run: a test, what it says, and its law.
//!
//! - `runnable`: Whether a unit may be run, as a test on the unit alone. It runs nothing.
#![tactic(auto)]

mod depths;
mod fault;
mod function;
mod laws;
mod places;
mod pragmas;
pub mod runnable;
mod step;
mod strings;
mod targets;
mod verified;

pub use fault::VerifyFault;
pub use laws::verified_is_never_stuck;
pub use step::{Step, Way};
pub use verified::{Verified, verify};
