//! URLs of pages: what a reference comes to, what a go asks for, and the entries of a history.
//! Whatever is made of such URLs here is one again.

mod entries;
mod page_url;
mod requests;

pub use entries::PageEntry;
pub use page_url::{PageUrl, plain, target};
pub use requests::PageRequest;
