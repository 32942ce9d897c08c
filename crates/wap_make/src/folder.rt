//! The pages of a made folder.
ghost use Rattle.std.specs.Prelude.{◌≡◌, ◌<◌, IfOk};
ghost use Rattle.wap_make.specs.Folders.{deck_page, folder};

use crate::decks::deck_of;
use crate::texts::{deck_count, deck_name, script, script_name};
use std::alloc::Global;
use wap_base::{Bytes, NoMemory, Text};
use wap_deck::writing::spell;
use wap_wbxml::spelling::decks_are_spellable;

/// The page of a deck.
fn deck_page(alloc: Global, n: u32, k: u32) -> Result<(Text, Bytes), NoMemory>
    requires { k < 1000 }
    ensures { IfOk result (λ page. page ≡ deck_page n k) }
{
    decks_are_spellable();
    let deck = deck_of(alloc, n, k)?;
    let bytes = spell(alloc, &deck)?;
    Ok((deck_name(alloc, k)?, bytes))
}

/// The pages of the made folder of a number: its decks in order, and the script.
pub fn folder_of(alloc: Global, n: u32) -> Result<Vec<(Text, Bytes)>, NoMemory>
    ensures { IfOk result (λ pages. pages.items ≡ folder n) }
{
    let mut pages = Vec::new(alloc);
    for k in 0..deck_count(n) {
        pages.push(deck_page(alloc, n, k)?)?;
    }
    pages.push((script_name(alloc)?, script(alloc)?))?;
    Ok(pages)
}
