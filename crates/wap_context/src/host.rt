//! What a browser is to a script that runs: it counts its turns, finds functions of other scripts
//! in pages, and has the libraries (WAP-193, section 6.4.2.2; WAP-194).

mod browsing;
mod dialogs;
mod finding;
mod libraries;
mod loading;
mod running;
mod sight;
mod standing;
mod units;

pub use running::Running;
pub use units::{External, entrance_in, external_in};
