//! Lines of text in one buffer, as they are written. A contract sees the list of them.

mod each;
mod lines;

pub use each::EachLine;
pub use lines::Lines;
