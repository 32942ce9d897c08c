//! What a browser does: worlds and sites, steps and sessions, scripts and their dialogs, and the
//! inbox, as definitions in `specs/`; and the laws of these. All that runs are the types, and
//! `site`.
//!
//! - `site`: The pages of a site: what they are, and how a browser asks for them.
//! - `session_laws`: What follows from the definitions of sessions. It runs nothing.
//! - `inboxes`: Sessions of a browser with an inbox of service indications, and what follows from
//!   their definitions. It runs nothing.
//! - `scripting`: What scripts do in a browser's world, as definitions in `specs/`: external calls
//!   with their access pragmas, the libraries that need a browser, dialogs that keys answer, and
//!   the sites whose scripts are units, or units and sources.
//! - `scripting_laws`: What follows from the definitions of scripts in a browser's world. It runs
//!   nothing.
#![tactic(auto)]

mod history;
pub mod inboxes;
mod refusal;
mod screen;
pub mod scripting_laws;
pub mod session_laws;
pub mod site;
mod timer;

pub use history::Entry;
pub use refusal::Refusal;
pub use screen::COLUMNS;
pub use timer::Timer;
