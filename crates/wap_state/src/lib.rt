//! What a browser keeps between two keys, the requests that it makes, and the screens that it
//! shows.
//!
//! - `requests`: Requests: the URL of a go or an open, what a go asks for and the line that it
//!   shows, and who may enter the page that answers.
//! - `page_urls`: URLs of pages: what a reference comes to, what a go asks for, and the entries of
//!   a history.
//! - `screen_lines`: The screen of a card, and the lines of refusals.
#![tactic(auto)]

mod fields;
mod hand;
mod history;
pub mod page_urls;
pub mod requests;
mod saved;
pub mod screen_lines;
mod screens;
mod setting;
mod state;
mod timers;

pub use hand::{Current, here};
pub use history::History;
pub use state::State;
