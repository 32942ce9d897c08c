//! WML's documents and decks, the tables of its names and codes, and what is found there.
//!
//! - `markup`: The types of documents, as WBXML spells them, and of decks, as WML means them; the
//!   tables of WML's names and codes.
#![tactic(auto)]

mod attrs;
mod laws;
pub mod markup;
mod places;
mod tags;
mod values;

pub use attrs::{attr_named, attr_start, code_of_start, name_of_attr, start_code};
pub use laws::{tables_agree, tables_are_listed};
pub use tags::{code_of, tag_named, tag_of};
pub use values::attr_value;
