//! What all crates share: texts and bytes, names and numbers, character sets, limits, values with
//! several owners, and keys; and what it is to read the items of a format of bytes from the left.
#![tactic(auto)]

mod bytes;
mod charset;
mod control;
mod fault;
mod key;
mod limits;
mod name;
mod number;
mod order;
mod places;
mod rows;
mod shared;
mod text;

pub use bytes::Bytes;
pub use charset::Charset;
pub use control::{is_control, shown_character, shown_text};
pub use fault::{NoMemory, RunErr};
pub use key::Key;
pub use limits::{
    DEFAULT_DEPTH, DEFAULT_HISTORY, DEFAULT_STRING, LEAST_DEPTH, LEAST_HISTORY, LEAST_STRING,
    Limits, MOST_DEPTH, MOST_HISTORY, MOST_STRING,
};
pub use name::{Conv, Name, NameFault, Part, is_name};
pub use number::{ReadFault, read_mb, read_u8, write_mb};
pub use order::{are_ascending, are_distinct};
pub use places::place;
pub use rows::Rows;
pub use shared::Shared;
pub use text::Text;
