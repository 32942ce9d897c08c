//! What a card of a good deck shows, as one flow of words, breaks and modes, and its dos, which the
//! same walk finds. What these are stands in `wap_cardrules`.

mod card;
mod elements;
mod fields;
mod selects;
mod shown;
mod walk;

pub use card::flow_and_dos;
