//! Calls in the fragments of URLs (WAP-193, section 8.3): which function of a script a go to its
//! page starts, and with which arguments.

mod arguments;
mod blanks;
mod calls;
mod invocation;
mod laws;
mod literals;

pub use calls::read_call;
pub use invocation::Invocation;
pub use laws::calls_are_read;
