//! The forms of a program's functions, before they have places.

mod exits;
mod expressions;
mod forms;
mod operators;
mod statements;
mod writing;

pub use statements::forms_of;
