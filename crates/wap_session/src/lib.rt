//! Browsers that are played by keys, with an inbox of service indications.
//!
//! - `notices`: What is shown of service indications: the lines of what is pushed into an inbox, and
//!   of its entries.
//! - `laws`: What follows from the definitions of sessions. It runs nothing.
#![tactic(auto)]

mod dots;
mod fault;
mod keys;
pub mod laws;
mod lines;
pub mod notices;
mod replies;
mod saved;
mod session;
mod standing;

pub use dots::shown_lines;
pub use fault::SessionFault;
pub use lines::refusal_lines;
pub use session::Session;
pub use wap_base::Key;
