//! Browsing a made folder, and the lines on what came of it.

mod judging;
mod keys;
mod making;
mod playing;
mod report;

pub use making::make;
