//! URLs after RFC 2396: reading, joining, the relative form, the name of a page in the store,
//! escapes, and the test of who may enter a page.
#![tactic(auto)]

mod access;
mod checks;
mod cut;
mod dots;
mod escapes;
mod fault;
mod joining;
mod parts;
mod printing;
mod reading;
mod relation;
mod texts;
mod url;

pub use access::Access;
pub use escapes::{escape, unescape};
pub use fault::UrlFault;
pub use joining::join;
pub use printing::{name_of, print};
pub use relation::relative;
pub use url::Url;
