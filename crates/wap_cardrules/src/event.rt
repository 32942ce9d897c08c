//! The events of a card (WAP-191, section 9.10).

/// What sets off a task by itself.
#[derive(Clone, Copy)]
pub enum Event {
    /// The card is entered by a go: `onenterforward`.
    Forward,
    /// The card is entered by a prev: `onenterbackward`.
    Backward,
    /// The card's timer has run out: `ontimer`.
    Timer,
}
