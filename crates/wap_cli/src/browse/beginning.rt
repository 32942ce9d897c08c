//! What a session is begun with.
use wap_base::{Limits, Text};

/// What a session is begun with.
#[derive(Drop)]
pub struct Beginning {
    /// The URL that is opened first.
    pub url: Text,
    /// What the first random number hangs on.
    pub seed: u32,
    /// How many turns each key has.
    pub budget: u32,
    /// What a run may keep and how deep it may call.
    pub limits: Limits,
}
