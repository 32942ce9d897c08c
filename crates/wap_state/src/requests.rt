//! Requests: the URL of a go or an open, what a go asks for and the line that it shows, and who may
//! enter the page that answers. What these are stands in `wap_world`.

mod access;
mod forms;
mod laws;
mod lines;
mod requests;
mod urls;

pub use access::{Entrance, entrance_of, may_enter};
pub use laws::access_is_by_labels_and_segments;
pub use lines::request_line;
pub use requests::{Request, plain_get, request_of};
pub use urls::{is_same_page, page_text, page_url, target};
