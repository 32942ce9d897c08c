//! Writing a document.
ghost use Rattle.std.specs.Prelude.{◌≡◌, ◌≢◌, ◌++◌, IfOk, OnOk, OnErr};
ghost use Rattle.std.specs.Io.{StartsWith};
ghost use Rattle.wap_tokens.specs.declared.markup.document.Document.{Document};
ghost use Rattle.wap_tokens.specs.declared.markup.deck.Deck.{Deck};
ghost use Rattle.wap_tokens.specs.markup.Documents.{IsDocument};
ghost use Rattle.wap_tokens.specs.markup.Normal.{IsNormal};
ghost use Rattle.wap_tokens.specs.markup.Writing.{document_of};
ghost use Rattle.wap_wbxml.specs.spelling.Spelling.{header_spelling, spelling, canon};
ghost use Rattle.wap_wbxml.specs.spelling.Characters.{OfNode};
ghost use Rattle.wap_wbxml.specs.spelling.Spellable.{IsSpellable, HasTexts};

use crate::spelling::elements::write_element;
use crate::spelling::names::names_of;
use crate::spelling::output::{Output, Pages, add_sized};
use crate::spelling::table::Table;
use std::alloc::Global;
use wap_base::{Bytes, NoMemory, write_mb};
use wap_tokens::markup::{CHARSET, Document, LEVEL_LIMIT, Tag, VERSION};

/// The document's one spelling: WBXML 1.3 in UTF-8, with a string table of the names alone. Where
/// the document's strings are of characters, as those of every document that bytes spell are, it is
/// read again as the document in that version and that character set.
pub fn encode(alloc: Global, document: &Document) -> Result<Bytes, NoMemory>
    requires { IsSpellable document.now }
    ensures spelled { IfOk result (λ bytes. bytes ≡ spelling document.now) }
{
    let table = Table::new(alloc, names_of(alloc, document)?)?;
    let mut output = Output {
        bytes: Bytes::new(alloc),
        pages: Pages {
            tag: 0,
            attribute: 0,
        },
    };
    write_header(&mut output.bytes, document.public, &table)?;
    write_element(&mut output, &table, LEVEL_LIMIT, &document.root)?;
    let Output { bytes, .. } = output;
    Ok(bytes)
}

/// Writes what stands before the root. When out of memory some of it may stand after the bytes.
pub fn write_header(bytes: &mut Bytes, public: u32, table: &Table) -> Result<(), NoMemory>
    ensures ok { let header = header_spelling public table.now in
        OnOk result (bytes.new ≡ bytes.old ++ header) }
    ensures left { OnErr result (StartsWith bytes.new bytes.old) }
{
    bytes.push(VERSION)?;
    write_mb(bytes, public)?;
    write_mb(bytes, CHARSET)?;
    add_sized(bytes, table.as_bytes())
}

/// What is written for a document is read as the document in the version and the character set in
/// which it was written.
pub fn spelling_is_read()
    ensures { (d : Document) → IsSpellable d → HasTexts d → IsDocument (spelling d) (canon d) }
{}

/// The documents that bytes spell can be written, and their strings are texts. The function does
/// nothing.
pub fn documents_are_spellable(_bytes: &[u8])
    ensures spellable { (d : Document) → IsDocument _bytes.now d → IsSpellable d }
    ensures texts { (d : Document) → IsDocument _bytes.now d → HasTexts d }
{}

/// The document of each deck that a document can mean can be written, its strings are texts where
/// those of the deck are, and it is its own canon. The function does nothing.
pub fn decks_are_spellable()
    ensures spellable { (deck : Deck) → IsNormal deck → deck.root.tag ≢ Tag.Other
        → IsSpellable (document_of deck) }
    ensures texts { (deck : Deck) → IsNormal deck → deck.root.tag ≢ Tag.Other
        → OfNode LEVEL_LIMIT deck.root → HasTexts (document_of deck) }
    ensures same { (deck : Deck) → canon (document_of deck) ≡ document_of deck }
{}
