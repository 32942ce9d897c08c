//! The document of a deck means the deck, and that of a deck which a document means is one that bytes
//! spell. The functions here do nothing, and carry the laws alone.
ghost use Rattle.std.specs.Prelude.{◌≡◌, ◌≢◌};
ghost use Rattle.wap_tokens.specs.declared.markup.deck.Deck.{Deck};
ghost use Rattle.wap_tokens.specs.declared.markup.document.Document.{Document};
ghost use Rattle.wap_tokens.specs.declared.markup.name.Tag.{Tag};
ghost use Rattle.wap_tokens.specs.markup.Documents.{IsDocument};
ghost use Rattle.wap_tokens.specs.markup.Decks.{deck_of};
ghost use Rattle.wap_tokens.specs.markup.Normal.{IsNormal};
ghost use Rattle.wap_tokens.specs.markup.Writing.{document_of};
ghost use Rattle.wap_wbxml.specs.spelling.Spelling.{spelling};

use wap_wbxml::spelling::{decks_are_spellable, documents_are_spellable, spelling_is_read};

/// The document of each deck that a document can mean means that deck, unless the deck's root is
/// unknown.
pub fn written_decks_are_meant()
    ensures { (deck : Deck) → IsNormal deck → deck.root.tag ≢ Tag.Other
        → deck_of (document_of deck) ≡ deck }
{}

/// The document of a deck that a document means is one that bytes spell, unless the deck's root is
/// unknown.
pub fn rewritten_is_read(_bytes: &[u8])
    ensures { (document : Document) → IsDocument _bytes.now document
        → (deck_of document).root.tag ≢ Tag.Other
        → let written = document_of (deck_of document) in IsDocument (spelling written) written }
{
    spelling_is_read();
    documents_are_spellable(_bytes);
    decks_are_spellable();
}
