//! Keys.
use crate::{Bytes, Text};

/// What a user does.
#[derive(Debug, Drop, PartialEq, Eq)]
pub enum Key {
    /// Opens a URL.
    Open(Text),
    /// Runs the active do of a name, which is a do's `name`, or else its `type`.
    Do(Text),
    /// Follows the link of a number.
    Pick(u16),
    /// Enters a text into the field of a number.
    Enter(u16, Text),
    /// Chooses in the field of a number the option of another.
    Choose(u16, u16),
    /// Goes back to the card before.
    Back,
    /// Lets so many tenths of a second pass.
    Tick(u32),
    /// Answers a dialog by its first button.
    Ok,
    /// Answers a dialog by its second button.
    Cancel,
    /// Answers a dialog by a text.
    Answer(Text),
    /// Stops a script.
    Stop,
    /// Shows the variables.
    Vars,
    /// Hands in a service indication, as the bytes that were pushed.
    Push(Bytes),
    /// Shows the inbox of service indications.
    Inbox,
    /// Opens the URL of the entry of a number in the inbox.
    Follow(u16),
}
