//! Tasks and all that they lead to, scripts among them.
//!
//! - `host`: What a browser is to a script that runs: it counts its turns, finds functions of other
//!   scripts in pages, and has the libraries (WAP-193, section 6.4.2.2; WAP-194).
//! - `laws`: What follows from what is seen of contexts. It runs nothing.
#![tactic(auto)]

mod asking;
mod context;
mod entering;
mod following;
pub mod host;
pub mod laws;
mod navigation;
mod running;
mod saved;
mod scenes;
mod script_lines;
mod starting;
mod ticking;
mod waiting;

pub use context::Context;
pub use saved::Revived;
pub use waiting::{Step, Ticked, Waiting};
pub use wap_image::context_parts::ContextParts;
pub use wap_world::Timer;
pub use wap_world::site::{Page, Pages};
