//! Instructions read from a function's code and forms placed into one, and functions of the
//! libraries, each by its table.
#![tactic(auto)]

mod bytes;
mod codes;
mod form;
mod instruction;
mod laws;
mod lengthening;
mod library;
mod pass;
mod placer;
mod site;
mod sizes;
mod table;

pub use form::{Form, PlaceFault};
pub use instruction::{next_instr, read_row, row_of};
pub use laws::{placeable_is_tested, sizes_are_least, table_is_exact, table_is_listed};
pub use library::{args_of, lib_args, lib_named};
pub use placer::place;
pub use sizes::wide_bytes;
