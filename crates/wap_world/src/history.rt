//! What the history keeps.
use wap_url::Url;

/// A card that was entered.
#[derive(Drop)]
pub struct Entry {
    /// The URL of its deck, without a fragment.
    pub url: Url,
    /// The number of the card in the deck, from 0.
    pub card: usize,
}
