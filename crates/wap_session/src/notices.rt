//! What is shown of service indications: the lines of what is pushed into an inbox, and of its
//! entries.

mod entries;
mod lines;
mod pushing;

pub use entries::url_in;
pub use lines::entry_lines;
pub use pushing::take_push;
