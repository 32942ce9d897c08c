//! The decks of a made folder.
ghost use Rattle.std.specs.Prelude.{◌≡◌, ◌<◌, IfOk};
ghost use Rattle.wap_make.specs.Folders.{literal, element, go_of, do_of, paragraph_of};
ghost use Rattle.wap_make.specs.Folders.{card_of, deck_of};

use crate::texts::{call_of, shown_of, title_of};
use std::alloc::Global;
use wap_base::{NoMemory, Part, Rows, Text};
use wap_tokens::markup::{AttrName, Deck, Item, Node, Tag};

/// A text without references to variables.
fn literal(alloc: Global, text: Text) -> Result<Rows<Part>, NoMemory>
    ensures { IfOk result (λ parts. parts ≡ literal text) }
{
    Ok(Rows::from_vec(vec![in alloc; Part::Lit(text)]?))
}

/// An element with these attributes and this content.
fn element(tag: Tag, attrs: Vec<(AttrName, Rows<Part>)>, kids: Vec<Item>) -> Item
    ensures { result ≡ element tag attrs.items kids.items }
{
    Item::Node(Node {
        tag,
        attrs: Rows::from_vec(attrs),
        kids: Rows::from_vec(kids),
    })
}

/// The go that calls the script.
fn go_of(alloc: Global, n: u32, k: u32) -> Result<Item, NoMemory>
    requires { k < 1000 }
    ensures { IfOk result (λ item. item ≡ go_of n k) }
{
    let url = literal(alloc, call_of(alloc, n, k)?)?;
    let attrs = vec![in alloc; (AttrName::Href, url)]?;
    Ok(element(Tag::Go, attrs, Vec::new(alloc)))
}

/// The do of the card.
#[tactic(auto, using(wap_base::proofs::Plain::words))]
fn do_of(alloc: Global, n: u32, k: u32) -> Result<Item, NoMemory>
    requires { k < 1000 }
    ensures { IfOk result (λ item. item ≡ do_of n k) }
{
    let kind = literal(alloc, Text::of(alloc, "ok")?)?;
    let attrs = vec![in alloc; (AttrName::Type, kind)]?;
    let kids = vec![in alloc; go_of(alloc, n, k)?]?;
    Ok(element(Tag::Do, attrs, kids))
}

/// The paragraph of the card.
fn paragraph_of(alloc: Global, n: u32, k: u32) -> Result<Item, NoMemory>
    ensures { IfOk result (λ item. item ≡ paragraph_of n k) }
{
    let text = literal(alloc, shown_of(alloc, n, k)?)?;
    let kids = vec![in alloc; Item::Text(text)]?;
    Ok(element(Tag::P, Vec::new(alloc), kids))
}

/// The card of a deck.
#[tactic(auto, using(wap_base::proofs::Plain::words))]
fn card_of(alloc: Global, n: u32, k: u32) -> Result<Item, NoMemory>
    requires { k < 1000 }
    ensures { IfOk result (λ item. item ≡ card_of n k) }
{
    let id = literal(alloc, Text::of(alloc, "c")?)?;
    let title = literal(alloc, title_of(alloc, k)?)?;
    let attrs = vec![in alloc; (AttrName::Id, id), (AttrName::Title, title)]?;
    let kids = vec![in alloc; do_of(alloc, n, k)?, paragraph_of(alloc, n, k)?]?;
    Ok(element(Tag::Card, attrs, kids))
}

/// The deck of a number.
pub(crate) fn deck_of(alloc: Global, n: u32, k: u32) -> Result<Deck, NoMemory>
    requires { k < 1000 }
    ensures { IfOk result (λ deck. deck ≡ deck_of n k) }
{
    let kids = vec![in alloc; card_of(alloc, n, k)?]?;
    Ok(Deck {
        root: Node {
            tag: Tag::Wml,
            attrs: Rows::new(alloc),
            kids: Rows::from_vec(kids),
        },
    })
}
