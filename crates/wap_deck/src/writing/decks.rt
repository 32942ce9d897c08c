//! Writing a deck.
ghost use Rattle.std.specs.Prelude.{◌≡◌, IfOk, OnOk};
ghost use Rattle.wap_tokens.specs.markup.Writing.{document_of};
ghost use Rattle.wap_wbxml.specs.spelling.Characters.{OfNode};
ghost use Rattle.wap_wbxml.specs.spelling.Spelling.{spelling};
ghost use Rattle.wap_wbxml.specs.spelling.Spellable.{IsSpellable};

use crate::writing::names::names_of;
use crate::writing::nodes::write_node;
use std::alloc::Global;
use wap_base::{Bytes, NoMemory};
use wap_tokens::markup::{Deck, LEVEL_LIMIT, WML_1_3};
use wap_wbxml::spelling::{Output, Pages, Table, write_header};

/// The one spelling of a deck's document, which isn't built. What is written is of characters.
pub fn spell(alloc: Global, deck: &Deck) -> Result<Bytes, NoMemory>
    requires { IsSpellable (document_of deck.now) }
    ensures spelled { IfOk result (λ bytes. bytes ≡ spelling (document_of deck.now)) }
    ensures characters { OnOk result (OfNode LEVEL_LIMIT deck.now.root) }
{
    let table = Table::new(alloc, names_of(alloc, deck)?)?;
    let mut output = Output {
        bytes: Bytes::new(alloc),
        pages: Pages {
            tag: 0,
            attribute: 0,
        },
    };
    write_header(&mut output.bytes, WML_1_3, &table)?;
    write_node(alloc, &mut output, &table, LEVEL_LIMIT - 1, &deck.root)?;
    let Output { bytes, .. } = output;
    Ok(bytes)
}
