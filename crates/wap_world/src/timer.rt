//! The timer of the current card (WAP-191, section 11.7).

/// A card's timer.
#[derive(Clone, Copy)]
pub enum Timer {
    /// It hasn't started since the card was entered.
    NotStarted,
    /// So many tenths of a second remain.
    Running(u32),
    /// It has run out, or there is none.
    Off,
    /// It has run out while a script waits for its user.
    Expired,
}
