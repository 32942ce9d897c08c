//! How documents are written as WBXML (WAP-192, section 5).

mod attributes;
mod documents;
mod elements;
mod names;
mod output;
mod table;

pub use documents::{
    decks_are_spellable, documents_are_spellable, encode, spelling_is_read, write_header,
};
pub use names::add_name;
pub use output::{Output, Pages};
pub use table::Table;
