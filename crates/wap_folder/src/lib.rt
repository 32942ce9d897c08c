//! Jobs that are worked on side by side.
#![tactic(auto)]

mod jobs;
mod pieces;

pub use jobs::{Work, run_jobs};

#[cfg(test)]
mod tests;
