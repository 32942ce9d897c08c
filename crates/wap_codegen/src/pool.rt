//! What the names of a program mean by their numbers, and the constants of its unit, in the order of
//! the first token that needs each.

mod constants;
mod content;
mod expressions;
mod named;
mod numbering;
mod outside;
mod programs;
mod statements;
mod variables;

pub use numbering::Numbering;
