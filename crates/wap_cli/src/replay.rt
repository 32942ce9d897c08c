//! Lists of keys, each played by a session of its own over the same pages, side by side.

mod judging;
mod playing;
mod preparing;
mod replaying;
mod writing;

pub use crate::browse::Beginning;
pub use replaying::replay;
