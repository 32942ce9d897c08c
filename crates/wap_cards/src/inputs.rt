//! The fields of a card: inputs, what a user enters into them, and selects. What these mean stands
//! in `wap_cardrules`.

mod choices;
mod choosing;
mod chosen;
mod defaults;
mod entering;
mod inputs;
mod options;
mod pieces;
mod sets;
mod setting;

pub use choices::choice_of;
pub use choosing::choose;
pub use defaults::apply_defaults;
pub use entering::enter_text;
pub use inputs::{input_variable, shown_text};
pub use options::options_of;
pub use setting::set_one;
