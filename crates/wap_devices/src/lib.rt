//! The outside of the browser: stores of pages, sources of keys and sinks of what is shown, with
//! fakes in memory that fail at the calls that a list names, and histories of what devices
//! answered, gave and took, which only proofs read.
#![tactic(auto)]

mod calls;
mod count;
mod draft;
mod fault;
mod gate;
mod history;
mod log;
mod printing;
mod sink;
mod source;
mod store;

pub use count::Count;
pub use draft::Draft;
pub use fault::Failed;
pub use gate::{Gate, NoGate};
pub use history::History;
pub use log::Log;
pub use printing::{print_fault, print_name, print_one};
pub use sink::{MemSink, Sink, write_all};
pub use source::{MemSource, Source};
pub use store::{Fetched, MemStore, PAGE_LIMIT, Store, StoreErr, are_pages};
