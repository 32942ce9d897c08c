//! The screen of a card, and the lines of refusals. What these are stands in `wap_world`.

mod lines;
mod screen;

pub use lines::{add_fault_lines, add_refusal};
pub use screen::add_screen;
