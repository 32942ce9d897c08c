//! Lists of keys: the recorded keys of several sessions.

mod item;
mod laws;
mod reading;

pub use item::Item;
pub use laws::sources_without_dividers_are_one_list;
pub use reading::read_lists;
