//! Runs of compiled functions in any host, by frames.
#![tactic(auto)]

mod acting;
mod asking;
mod calling;
mod calls;
mod constants;
mod frame;
mod going;
mod host;
mod instruction;
mod leaving;
mod machine;
mod next;
mod performing;
mod running;
mod script;
mod short_circuit;
mod stepping;
mod variables;

pub use frame::Frame;
pub use host::Host;
pub use machine::{Machine, Outcome, Waiting};
pub use next::{Callee, Next};
pub use performing::act;
pub use script::Script;
