//! What a page is read as.
ghost use Rattle.std.specs.Prelude.{◌≡◌, codes};
ghost use Rattle.wap_pages.specs.Judged.{has_end, kind_of};

use wap_base::Text;

/// What a page is read as, which the end of its name says.
#[derive(Clone, Copy, Debug, PartialEq, Eq)]
pub enum Kind {
    /// A document that means a deck.
    Deck,
    /// A text in UTF-8.
    Words,
    /// A compiled unit.
    Unit,
    /// A script's source.
    Source,
}

impl Kind {
    /// The kind of the page of a name.
    pub fn of(name: &Text) -> Kind
        ensures { result ≡ kind_of name.now }
    {
        if ends_wmls(name) {
            Kind::Source
        } else if ends_wmlsc(name) {
            Kind::Unit
        } else if ends_txt(name) {
            Kind::Words
        } else {
            Kind::Deck
        }
    }
}

fn ends_wmls(name: &Text) -> bool
    ensures { result ≡ has_end (codes ".wmls") name.now }
{
    name.as_str().ends_with(".wmls")
}

fn ends_wmlsc(name: &Text) -> bool
    ensures { result ≡ has_end (codes ".wmlsc") name.now }
{
    name.as_str().ends_with(".wmlsc")
}

fn ends_txt(name: &Text) -> bool
    ensures { result ≡ has_end (codes ".txt") name.now }
{
    name.as_str().ends_with(".txt")
}
