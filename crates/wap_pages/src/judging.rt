//! Judging a page by its name and bytes.
ghost use Rattle.std.specs.Prelude.{◌≡◌, ◌<◌, ◌^◌, false, length, IfOk, Err};
ghost use Rattle.wap_base.specs.Outcome.{Meets};
ghost use Rattle.wap_tokens.specs.markup.Normal.{IsNormal};
ghost use Rattle.wap_pages.specs.Memory.{RefusesForFault};
ghost use Rattle.wap_pages.specs.Judged.{page_of_bytes, Refuses, may_differ};
ghost use Rattle.wap_pages.specs.inside.Judging.{Judges, JudgesDeck};
ghost use Rattle.wap_pages.specs.declared.fault.PageErr.TheVariants as error;

use crate::reading::{compiled_in, deck_in, verified_in};
use crate::{Kind, PageErr, PageFault};
use std::alloc::Global;
use wap_base::{Charset, Text};
use wap_deckcheck::check;
use wap_tokens::markup::Deck;
use wap_world::site::{Page, Shared};

/// The page of a name with these bytes, of which there have to be fewer than 2^31. It is never
/// `Missing` or `Refused`: where a page is refused, the fault says why. Where several faults may be
/// named, it is one of them.
pub fn judge(alloc: Global, name: &Text, bytes: &[u8]) -> Result<Page, PageErr>
    requires { length bytes.now < 2 ^ 31 }
    ensures page { IfOk result (λ page. page ≡ page_of_bytes name.now bytes.now) }
    ensures accepted { IfOk result (λ page. (fault : PageFault)
        → ¬ Refuses name.now bytes.now fault) }
    ensures refused { (fault : PageFault) → result ≡ Err (error.Refused fault)
        → Refuses name.now bytes.now fault }
    ensures for_fault { RefusesForFault result }
    ensures only { (fault : PageFault) → Refuses name.now bytes.now fault
        → may_differ fault ≡ false
        → Meets error.NoMemory (λ page. page) result (Err (error.Refused fault)) }
{
    judge_by_kind(alloc, Kind::of(name), bytes)
}

fn judge_by_kind(alloc: Global, kind: Kind, bytes: &[u8]) -> Result<Page, PageErr>
    requires { length bytes.now < 2 ^ 31 }
    ensures { Judges kind bytes.now result }
{
    match kind {
        Kind::Deck => judge_deck(alloc, bytes),
        Kind::Words => judge_text(alloc, bytes),
        Kind::Unit => judge_unit(alloc, bytes),
        Kind::Source => judge_source(alloc, bytes),
    }
}

/// The deck that bytes are.
fn judge_deck(alloc: Global, bytes: &[u8]) -> Result<Page, PageErr>
    ensures { Judges Kind.Deck bytes.now result }
{
    let deck = deck_in(alloc, bytes)?;
    judge_read(alloc, deck)
}

/// A deck that was read, if it is good.
fn judge_read(alloc: Global, deck: Deck) -> Result<Page, PageErr>
    requires { IsNormal deck }
    ensures { JudgesDeck deck result }
{
    match check(alloc, deck) {
        Ok(good) => Ok(Page::Deck(Shared::new(alloc, good)?)),
        Err((_, fault)) => Err(PageErr::from(fault)),
    }
}

/// The unit that bytes are, if it may be run.
fn judge_unit(alloc: Global, bytes: &[u8]) -> Result<Page, PageErr>
    requires { length bytes.now < 2 ^ 31 }
    ensures { Judges Kind.Unit bytes.now result }
{
    let verified = verified_in(alloc, bytes)?;
    Ok(Page::Script(Shared::new(alloc, verified)?))
}

/// The unit of the program that a source spells.
fn judge_source(alloc: Global, bytes: &[u8]) -> Result<Page, PageErr>
    requires { length bytes.now < 2 ^ 31 }
    ensures { Judges Kind.Source bytes.now result }
{
    let compiled = compiled_in(alloc, bytes)?;
    Ok(Page::Script(Shared::new(alloc, compiled)?))
}

/// The text that bytes are.
fn judge_text(alloc: Global, bytes: &[u8]) -> Result<Page, PageErr>
    ensures { Judges Kind.Words bytes.now result }
{
    match Charset::Utf8.text(alloc, bytes)? {
        Some(text) => Ok(Page::Words(Shared::new(alloc, text)?)),
        None => Err(PageErr::Refused(PageFault::NotText)),
    }
}
