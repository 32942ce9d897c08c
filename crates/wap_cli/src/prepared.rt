//! Judged pages that many sessions share.

mod prepared;
mod shared;

pub use prepared::Prepared;
pub use shared::Shared;
