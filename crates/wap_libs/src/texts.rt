//! What the functions of the standard libraries of WMLScript (WAP-194) do with characters, and how
//! values become these and come of them. `wap_libs` has the definitions.

pub mod argument;
pub mod characters;
mod draft;
pub mod elements;
pub mod format;
pub mod laws;
pub mod occurrences;
mod pieces;
pub mod walks;
