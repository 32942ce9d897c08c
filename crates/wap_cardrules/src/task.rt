//! Tasks (WAP-191, section 9.5), as they are taken: every value is filled.
use wap_base::{Rows, Text};

/// What a user or an event sets off.
#[derive(Debug, Drop, PartialEq, Eq)]
pub enum Task {
    /// To a URL.
    Go(Go),
    /// Back to the card before, with these variables set.
    Prev(Rows<(Text, Text)>),
    /// The card is shown again, with these variables set.
    Refresh(Rows<(Text, Text)>),
}

/// A go (WAP-191, section 9.5.1).
#[derive(Debug, Drop, PartialEq, Eq)]
pub struct Go {
    /// The URL, as a reference to that of the deck.
    pub href: Text,
    /// Whether the method is post; else it is get.
    pub post: bool,
    /// Whether the request tells the URL of the deck.
    pub referer: bool,
    /// Whether the page is fetched anew.
    pub fresh: bool,
    /// The names and values of the postfields.
    pub posts: Rows<(Text, Text)>,
    /// The names and values of the setvars.
    pub sets: Rows<(Text, Text)>,
}
