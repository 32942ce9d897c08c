//! What bytes are read as: documents, units, and sources with the units that they are compiled to.
ghost use Rattle.std.specs.Prelude.{◌≡◌, ◌<◌, ◌^◌, length, IfOk, Ok, Err};
ghost use Rattle.wap_base.specs.Outcome.{Meets};
ghost use Rattle.wap_tokens.specs.declared.markup.document.Document.{Document};
ghost use Rattle.wap_tokens.specs.markup.Documents.{IsDocument};
ghost use Rattle.wap_tokens.specs.markup.Decks.{deck_of};
ghost use Rattle.wap_tokens.specs.markup.Normal.{IsNormal};
ghost use Rattle.wap_unit.specs.declared.unit.Unit.{Unit};
ghost use Rattle.wap_unit.specs.Units.{IsUnit};
ghost use Rattle.wap_verify.specs.Sound.{IsVerified};
ghost use Rattle.wap_grammar.specs.declared.program.program.Program.{Program};
ghost use Rattle.wap_meaning.specs.compiled.Units.{compiled};
ghost use Rattle.wap_meaning.specs.compiled.Accepted.{IsAccepted};
ghost use Rattle.wap_pages.specs.Memory.{RefusesForFault};
ghost use Rattle.wap_pages.specs.Refusals.{RefusesDocument, RefusesUnit, RefusesVerify};
ghost use Rattle.wap_pages.specs.Refusals.{RefusesSource};
ghost use Rattle.wap_pages.specs.declared.fault.PageErr.TheVariants as error;
ghost use Rattle.wap_pages.specs.declared.fault.PageFault.{PageFault};

use crate::PageErr;
use std::alloc::Global;
use wap_codegen::compile;
use wap_deck::reading::read_deck;
use wap_tokens::markup::{Deck, Document};
use wap_unit::Unit;
use wap_verify::{Verified, verify};

/// The document that the bytes are.
pub fn document_in(alloc: Global, bytes: &[u8]) -> Result<Document, PageErr>
    ensures found { IfOk result (λ document. IsDocument bytes.now document) }
    ensures only { (document : Document) → IsDocument bytes.now document
        → Meets error.NoMemory (λ document. document) result (Ok document) }
    ensures refused { (fault : PageFault) → result ≡ Err (error.Refused fault)
        → RefusesDocument bytes.now fault }
    ensures for_fault { RefusesForFault result }
{
    Ok(wap_wbxml::decode(alloc, bytes)?)
}

/// The deck of the document that the bytes are. It needn't be good.
pub fn deck_in(alloc: Global, bytes: &[u8]) -> Result<Deck, PageErr>
    ensures found { IfOk result (λ deck.
        (document : Document) × IsDocument bytes.now document × (deck ≡ deck_of document)) }
    ensures only { (document : Document) → IsDocument bytes.now document
        → Meets error.NoMemory (λ deck. deck) result (Ok (deck_of document)) }
    ensures normal { IfOk result IsNormal }
    ensures refused { (fault : PageFault) → result ≡ Err (error.Refused fault)
        → RefusesDocument bytes.now fault }
    ensures for_fault { RefusesForFault result }
{
    Ok(read_deck(alloc, bytes)?)
}

/// The unit that the bytes are.
pub fn unit_in(alloc: Global, bytes: &[u8]) -> Result<Unit, PageErr>
    requires { length bytes.now < 2 ^ 32 }
    ensures found { IfOk result (λ unit. IsUnit bytes.now unit) }
    ensures only { (unit : Unit) → IsUnit bytes.now unit
        → Meets error.NoMemory (λ unit. unit) result (Ok unit) }
    ensures refused { (fault : PageFault) → result ≡ Err (error.Refused fault)
        → RefusesUnit bytes.now fault }
    ensures for_fault { RefusesForFault result }
{
    Ok(wap_unit::decode(alloc, bytes)?)
}

/// The unit that the bytes are, if it may be run.
pub fn verified_in(alloc: Global, bytes: &[u8]) -> Result<Verified, PageErr>
    requires { length bytes.now < 2 ^ 32 }
    ensures found { IfOk result (λ verified. IsUnit bytes.now verified × IsVerified verified) }
    ensures only { (unit : Unit) → IsUnit bytes.now unit → IsVerified unit
        → Meets error.NoMemory (λ verified. verified) result (Ok unit) }
    ensures refused { (fault : PageFault) → result ≡ Err (error.Refused fault)
        → RefusesVerify bytes.now fault }
    ensures for_fault { RefusesForFault result }
{
    let unit = unit_in(alloc, bytes)?;
    match verify(alloc, unit) {
        Ok(verified) => Ok(verified),
        Err((_, fault)) => Err(PageErr::from(fault)),
    }
}

/// The unit that the bytes are compiled to, if they are a source.
pub fn compiled_in(alloc: Global, bytes: &[u8]) -> Result<Verified, PageErr>
    requires { length bytes.now < 2 ^ 31 }
    ensures found { IfOk result (λ unit.
        (p : Program) × IsAccepted bytes.now p × (unit ≡ compiled p)) }
    ensures only { (p : Program) → IsAccepted bytes.now p
        → Meets error.NoMemory (λ unit. unit) result (Ok (compiled p)) }
    ensures refused { (fault : PageFault) → result ≡ Err (error.Refused fault)
        → RefusesSource bytes.now fault }
    ensures for_fault { RefusesForFault result }
{
    Ok(compile(alloc, bytes)?)
}
