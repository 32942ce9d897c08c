//! Input masks: which texts an input field takes.
//!
//! A mask is the `format` attribute of a WML input element (WAP-191, section 11.6.3). Contracts see
//! it as the list of its symbols, and say of a text whether it is one text for each symbol, joined.
#![tactic(auto)]

mod class;
pub mod laws;
mod mask;
mod run;
mod scan;
mod symbol;

pub use class::Class;
pub use mask::Mask;
pub use symbol::Symbol;
