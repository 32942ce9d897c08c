//! What the commands on one page write.

mod documents;
mod sources;
mod units;

pub use documents::{canonical, check_line};
pub use sources::compiled_bytes;
pub use units::verify_line;
pub use wap_pages::{PageErr, PageFault, unit_in};
