//! What a folder's pages are judged, side by side, and the report of it.

mod fetching;
mod job;
mod judging;
mod preparing;
mod report;

pub use fetching::fetch_all;
pub use job::Job;
pub use judging::all_answers;
pub use preparing::prepare;
