//! Commands on a document.
ghost use Rattle.std.specs.Prelude.{◌≡◌, IfOk, OnOk, Ok, Err};
ghost use Rattle.wap_base.specs.Outcome.{Meets};
ghost use Rattle.wap_tokens.specs.declared.markup.document.Document.{Document};
ghost use Rattle.wap_tokens.specs.markup.Documents.{IsDocument};
ghost use Rattle.wap_tokens.specs.markup.Decks.{deck_of};
ghost use Rattle.wap_tokens.specs.markup.Good.{IsGood};
ghost use Rattle.wap_tokens.specs.markup.Normal.{IsNormal};
ghost use Rattle.wap_keys.specs.declared.words.words.PageCommand.TheVariants as command;
ghost use Rattle.wap_cli.specs.Answers.{Finds};
ghost use Rattle.wap_cli.specs.inspect.Documents.{deck_line, IsDeckOf};
ghost use Rattle.wap_pages.specs.Memory.{RefusesForFault};
ghost use Rattle.wap_pages.specs.Refusals.{IsDeckRefused, RefusesCheck};
ghost use Rattle.wap_pages.specs.declared.fault.PageErr.TheVariants as error;
ghost use Rattle.wap_pages.specs.declared.fault.PageFault.{PageFault};

use itoa::Buffer;
use std::alloc::Global;
use wap_base::{Bytes, NoMemory};
use wap_deckcheck::{card_count, judge_deck};
use wap_pages::{PageErr, deck_in, document_in};
use wap_tokens::markup::Deck;
use wap_wbxml::spelling::{documents_are_spellable, encode};

/// The one spelling of a page that is a document.
pub fn canonical(alloc: Global, bytes: &[u8]) -> Result<Bytes, PageErr>
    ensures { Finds command.Canon bytes.now result }
{
    documents_are_spellable(bytes);
    let document = document_in(alloc, bytes)?;
    Ok(encode(alloc, &document)?)
}

/// Nothing, where a deck is good.
fn judge(alloc: Global, deck: &Deck) -> Result<(), PageErr>
    requires { IsNormal deck.now }
    ensures good { OnOk result (IsGood deck.now) }
    ensures only { IsGood deck.now → Meets error.NoMemory (λ none. none) result (Ok tt) }
    ensures refused { (fault : PageFault) → result ≡ Err (error.Refused fault)
        → IsDeckRefused deck.now fault }
    ensures for_fault { RefusesForFault result }
{
    judge_deck(alloc, deck)?;
    Ok(())
}

/// The deck of a page, if it is good.
fn good_deck_in(alloc: Global, bytes: &[u8]) -> Result<Deck, PageErr>
    ensures found { IfOk result (λ deck. IsDeckOf bytes.now deck) }
    ensures only { (document : Document) → IsDocument bytes.now document
        → IsGood (deck_of document)
        → Meets error.NoMemory (λ deck. deck) result (Ok (deck_of document)) }
    ensures refused { (fault : PageFault) → result ≡ Err (error.Refused fault)
        → RefusesCheck bytes.now fault }
    ensures for_fault { RefusesForFault result }
{
    let deck = deck_in(alloc, bytes)?;
    judge(alloc, &deck)?;
    Ok(deck)
}

/// The line of a page that is a document with a good deck.
pub fn check_line(alloc: Global, bytes: &[u8]) -> Result<Bytes, PageErr>
    ensures { Finds command.Check bytes.now result }
{
    let deck = good_deck_in(alloc, bytes)?;
    Ok(line_of(alloc, &deck)?)
}

fn line_of(alloc: Global, deck: &Deck) -> Result<Bytes, NoMemory>
    ensures { IfOk result (λ line. line ≡ deck_line deck.now) }
{
    let mut buffer = Buffer::new();
    let count = buffer.format(card_count(deck));
    let mut line = Bytes::of(alloc, b"ok deck cards=")?;
    line.add(count.as_bytes())?;
    line.add(b"\n")?;
    Ok(line)
}
