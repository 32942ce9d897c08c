//! The names of programs in order, or the first fault, and the laws of both.
//!
//! - `accepted`: Laws of programs whose names are in order: what may be taken for granted where
//!   code is made for them. It runs nothing.
//! - `order`: Laws of sources, from their tokens to their names. It runs nothing.
#![tactic(auto)]

pub mod accepted;
mod expressions;
mod fault;
mod functions;
mod globals;
mod laws;
mod limits;
mod names;
pub mod order;
mod scoped;
mod statements;

pub use fault::ScopeFault;
pub use laws::{faults_are_listed, faults_ascend, names_have_one_meaning, scoped_is_faultless};
pub use limits::{ARGUMENT_LIMIT, FUNCTION_LIMIT, VARIABLE_LIMIT};
pub use scoped::{Scoped, resolve};
