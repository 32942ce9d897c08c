//! Service indications (WAP-167), the short notices that sites push to a handset: read from the
//! bytes that are pushed, and kept in an inbox.
#![tactic(auto)]

mod codes;
mod content;
mod created;
mod fault;
mod fields;
mod inbox;
mod indication;
pub mod laws;
mod names;
mod printing;
mod pushes;
mod reading;
mod tables;
mod values;

pub use fault::PushFault;
pub use inbox::Inbox;
pub use indication::{Action, Indication};
pub use names::{PushField, PushTag};
pub use printing::push_fault_text;
pub use pushes::read_push;
pub use reading::indication_of;
pub use tables::{PUSH_ACTIONS, PUSH_STARTS, PUSH_TAGS, PUSH_VALUES, SI_1_0};
