//! Browsing: a session with an inbox whose keys are read and played one after the other.

mod beginning;
mod browsing;
mod ending;
mod lines;
mod playing;
mod reading;

pub use beginning::Beginning;
pub use browsing::{browse, browse_session};
pub use ending::at_end;
pub use lines::add_lines;
pub use reading::play_keys;
