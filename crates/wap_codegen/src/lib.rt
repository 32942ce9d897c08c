//! The compiler: sources to units that may be run, or why there is none.
//!
//! - `pool`: What the names of a program mean by their numbers, and the constants of its unit, in
//!   the order of the first token that needs each.
//! - `emission`: The forms of a program's functions, before they have places.
//! - `source_faults`: Why sources aren't compiled: each that isn't accepted has a fault, and none
//!   that is. It runs nothing.
#![tactic(auto)]

mod compiling;
pub mod emission;
mod fault;
mod functions;
mod names;
pub mod pool;
mod pragmas;
mod savings;
pub mod source_faults;
mod sources;
mod units;
mod wide;

pub use compiling::compile;
pub use fault::CompileFault;
