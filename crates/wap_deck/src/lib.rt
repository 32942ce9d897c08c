//! Decks: made of documents and of bytes, written as bytes, and good decks, which are kept as
//! bytes.
//!
//! - `documents`: What parts of documents give in the decks that they mean.
//! - `reading`: Bytes read as the decks that they mean, without their documents.
//! - `writing`: How decks are written as WBXML (WAP-192, section 5), without their documents.
//! - `good`: Good decks, kept as the bytes that spell them, and the views through which they are
//!   read.
#![tactic(auto)]

pub mod documents;
pub mod good;
pub mod reading;
pub mod writing;
