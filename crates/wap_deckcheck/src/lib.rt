//! Whether a deck is good.
#![tactic(auto)]

mod cards;
mod fault;
mod forms;
mod judge;
mod laws;
mod names;
mod rules;
mod walk;

pub use cards::card_count;
pub use fault::DeckFault;
pub use forms::{LentForm, wrong_value};
pub use judge::{check, judge_deck};
pub use laws::{faults_ascend, good_is_faultless, rules_are_listed};
pub use rules::{Rule, has_needs, is_blank_text};
