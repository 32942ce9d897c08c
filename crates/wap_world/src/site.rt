//! The pages of a site: what they are, and how a browser asks for them.

pub mod laws;
mod page;
mod pages;

pub use page::Page;
pub use pages::Pages;
pub use wap_base::Shared;
