//! Pages as a browser judges them by their names and bytes, and a cache of them.
#![tactic(auto)]

mod cached;
mod deck_faults;
mod fault;
mod judging;
mod kind;
mod law;
mod printing;
mod reading;
mod source_faults;
mod threads;
mod unit_faults;

pub use cached::{Cached, LEAST_CAPACITY, MOST_CAPACITY};
pub use fault::{PageErr, PageFault};
pub use judging::judge;
pub use kind::Kind;
pub use law::{answers_of_one_way_have_pages, pages_are_judged, refused_pages_have_faults};
pub use reading::{compiled_in, deck_in, document_in, unit_in, verified_in};
pub use threads::all_cross;
