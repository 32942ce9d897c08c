//! What the program is given: the words of its command line, key lines, the keys of a source, and
//! lists of keys.
//!
//! - `lists`: Lists of keys: the recorded keys of several sessions.
//! - `words`: The words of the program's commands.
#![tactic(auto)]

mod decimal;
mod ending;
mod fault;
mod key;
mod limits;
mod line;
pub mod lists;
mod prefix;
mod reader;
mod reading;
mod word;
pub mod words;

pub use decimal::decimal_of;
pub use ending::{Ending, Next};
pub use fault::KeyFault;
pub use key::read_key;
pub use limits::{KEYS_LIMIT, LINE_LIMIT, PIECE_LIMIT};
pub use line::{content_key, without_return};
pub use prefix::{Prefix, take_prefix};
pub use reader::Reader;
pub use reading::read_keys;
pub use wap_base::Key;
