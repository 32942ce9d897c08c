//! The parts of a context at rest.
use wap_base::{Limits, Rows, Text};

/// What a context at rest keeps, with the generator by how far it was drawn.
#[derive(Drop)]
pub struct ContextParts {
    /// The variables, each with its text, in the order of their names.
    pub vars: Rows<(Text, Text)>,
    /// The cards that were entered, the current one last: the URL of the deck as it is written,
    /// without a fragment, and the number of the card.
    pub history: Rows<(Text, usize)>,
    /// The timer of the current card.
    pub timer: SavedTimer,
    /// The seed with which the session began.
    pub seed: u32,
    /// The seed from which the generator started last.
    pub start: u32,
    /// How many words were drawn from the generator since then.
    pub drawn: u64,
    /// What the run may keep and how deep it may call.
    pub limits: Limits,
}

/// The timer of a card while no script is at work.
#[derive(Clone, Copy)]
pub enum SavedTimer {
    /// It hasn't started since the card was entered.
    NotStarted,
    /// So many tenths of a second remain.
    Running(u32),
    /// It has run out, or there is none.
    Off,
}
