//! Cards: what they have, their fields, and what they show. What they mean stands in
//! `wap_cardrules`.
//!
//! - `inputs`: The fields of a card: inputs, what a user enters into them, and selects.
//! - `flow`: What a card of a good deck shows, as one flow of words, breaks and modes, and its dos,
//!   which the same walk finds.
#![tactic(auto)]

mod content;
mod dos;
mod elements;
mod events;
mod fields;
mod filling;
pub mod flow;
pub mod inputs;
mod numbers;
mod tasks;
mod texts;
mod timers;
mod titles;
mod values;

pub use content::{is_open, may_have_text};
pub use dos::{active_dos, do_task};
pub use events::{binding, onpick};
pub use fields::{fields_of, is_field, link_task, numbered_view};
pub use filling::{fill, fill_value, value_if};
pub use numbers::number_in;
pub use tasks::{first_with, is_filled};
pub use texts::Texts;
pub use timers::{text_under, timer_of};
pub use titles::title;
pub use values::{is_true, is_word, plain_value, variable_in};
pub use wap_cardrules::{Chosen, Entered, Event, Go, Task};
