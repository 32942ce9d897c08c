//! Indications.
use wap_base::Text;

/// How an indication is to be met (WAP-167, section 5.2).
#[derive(Clone, Copy)]
pub enum Action {
    /// It is kept, and isn't shown when it comes.
    Quiet,
    /// It is shown when the user has nothing else to do.
    Low,
    /// It is shown as soon as that doesn't disturb the user.
    Medium,
    /// It is shown at once.
    High,
    /// The indication of the same identifier is deleted.
    Delete,
}

/// A notice that a site pushes to a handset.
#[derive(Drop)]
pub struct Indication {
    /// What tells indications apart: a later one of the same identifier stands for an earlier one.
    pub id: Text,
    /// The URL of the page that it speaks of, as it is spelled.
    pub href: Option<Text>,
    /// When it was made, in decimal digits YYYYMMDDhhmmss; 0 where that isn't said.
    pub created: u64,
    /// How it is to be met.
    pub action: Action,
    /// What the user is to read.
    pub text: Text,
}
