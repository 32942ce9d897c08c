//! Bytes that are no document: why, and as far as they could be read.

mod header;
mod hexadecimal;
mod identifier;
mod partial;
mod words;

pub(crate) use hexadecimal::add_bytes_around;
pub(crate) use words::add_document_fault;
