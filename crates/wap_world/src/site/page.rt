//! What a page is.
ghost use Rattle.std.specs.Prelude.{◌≡◌, IfOk};

use crate::site::Shared;
use wap_base::{NoMemory, Text};
use wap_deck::good::GoodDeck;
use wap_verify::Verified;

/// What a page is to a browser. A contract sees the deck, the unit or the text.
#[derive(Drop)]
pub enum Page {
    /// A good deck.
    Deck(Shared<GoodDeck>),
    /// A script, as a unit that may be run.
    Script(Shared<Verified>),
    /// A text, which scripts may load.
    Words(Shared<Text>),
    /// A page that is none of these.
    Refused,
    /// There is no page of the name.
    Missing,
}

impl Page {
    /// The page, with one owner more.
    pub fn share(&self) -> Result<Page, NoMemory>
        ensures { IfOk result (λ shared. shared ≡ self.now) }
    {
        match self {
            Page::Deck(deck) => Ok(Page::Deck(deck.share()?)),
            Page::Script(script) => Ok(Page::Script(script.share()?)),
            Page::Words(text) => Ok(Page::Words(text.share()?)),
            Page::Refused => Ok(Page::Refused),
            Page::Missing => Ok(Page::Missing),
        }
    }
}
