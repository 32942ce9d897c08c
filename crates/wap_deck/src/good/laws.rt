//! What the bytes of a deck promise.
ghost use Rattle.std.specs.Prelude.{◌≡◌, ◌≤◌, ◌-◌, ℕ, List, Ok, length};
ghost use Rattle.wap_base.specs.Numbers.{mb_at};
ghost use Rattle.wap_tokens.specs.declared.markup.deck.Deck.{Deck};
ghost use Rattle.wap_tokens.specs.declared.markup.document.TheConstants.{LEVEL_LIMIT};
ghost use Rattle.wap_tokens.specs.markup.Good.{IsGood};
ghost use Rattle.wap_tokens.specs.markup.Normal.{IsNormal};
ghost use Rattle.wap_tokens.specs.markup.Writing.{document_of};
ghost use Rattle.wap_wbxml.specs.spelling.Spelling.{spelling};
ghost use Rattle.wap_wbxml.specs.spelling.Spellable.{IsSpellable};
ghost use Rattle.wap_wbxml.specs.spelling.Characters.{OfNode};
ghost use Rattle.wap_deck.specs.declared.good.laws.TheConstants.{HEADER_LENGTH};
ghost use Rattle.wap_deck.specs.good.inside.Header.{HasTable};
ghost use Rattle.wap_deck.specs.good.inside.KeptBytes.{IsHeld, table_in, deck_in};

/// How many bytes stand before the length of the string table in what is written for a deck: the
/// version, the public identifier and the character set take one each.
pub const HEADER_LENGTH: usize = 3;

/// The bytes that spell the document of a deck have a string table, and the deck is read from them.
/// The function does nothing.
pub(crate) fn decks_are_read()
    ensures table { (deck : Deck) (bytes : List ℕ) → IsGood deck → IsNormal deck
        → OfNode LEVEL_LIMIT deck.root → IsSpellable (document_of deck)
        → bytes ≡ spelling (document_of deck) → HasTable bytes }
    ensures deck { (deck : Deck) (bytes : List ℕ) (table root : ℕ) → IsGood deck → IsNormal deck
        → OfNode LEVEL_LIMIT deck.root → IsSpellable (document_of deck)
        → bytes ≡ spelling (document_of deck)
        → mb_at bytes HEADER_LENGTH ≡ Ok (root - table, table) → table ≤ root → root ≤ length bytes
        → let names = table_in table root bytes in
        IsHeld names root bytes × (deck_in names root bytes ≡ deck) }
{}
