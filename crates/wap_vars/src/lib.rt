//! The variables of the browser: what they are, what setting one gives, what a value comes to that
//! refers to them, and a map from names to texts with its limits.
#![tactic(auto)]

mod fault;
mod filling;
pub mod laws;
mod limits;
mod vars;

pub use fault::VarFault;
pub use limits::{TEXT_LIMIT, VAR_LIMIT};
pub use vars::Vars;
