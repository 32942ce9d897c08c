//! Documents in WBXML: read from bytes, and written.
//!
//! - `spelling`: How documents are written as WBXML (WAP-192, section 5).
#![tactic(auto)]

mod attributes;
mod builder;
mod documents;
mod elements;
mod fault;
mod fronts;
mod header;
mod input;
mod kept;
mod leaves;
mod marks;
mod printing;
pub mod spelling;
mod state;

pub use builder::Builder;
pub use documents::{decode, decode_with, no_two_documents, read};
pub use fault::DocFault;
pub use fronts::string_from;
pub use marks::{has_attributes, has_content};
pub use printing::{document_fault_text, print_document_fault};
pub use wap_tokens::markup::{Attr, Document, Element, Kid, Piece, Token};
