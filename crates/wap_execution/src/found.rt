//! Functions of other units.
use crate::Fatal;
use wap_url::Url;

/// What the search for a function of another unit came to.
#[derive(Drop)]
pub enum Found<U> {
    /// A unit, its URL, and the function's index.
    Callee(U, Url, u8),
    /// There is none that may be called.
    Not(Fatal),
}
