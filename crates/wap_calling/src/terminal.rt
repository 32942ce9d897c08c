//! A session over pages of one's own: what a caller gets.
ghost use Rattle.std.specs.Prelude.{◌≡◌, ◌∷◌, [], true, false, is_some, IfOk, OnOk, Ok};
ghost use Rattle.wap_base.specs.declared.key.Key.TheVariants.{Answer};
ghost use Rattle.wap_push.specs.Pushes.{push_at};
ghost use Rattle.wap_world.specs.Sessions.{shown_by, world_of, unpushed, played};
ghost use Rattle.wap_world.specs.site.Asking.{MayBe};
ghost use Rattle.wap_world.specs.site.Pages.{Pages as JudgedPages};
ghost use Rattle.wap_world.specs.scripting.UnitSites.{unit_pages};
ghost use Rattle.wap_context.specs.Sites.{site_of, IfOver};
ghost use Rattle.wap_session.specs.Feeding.{beginning, shown_of};
ghost use Rattle.wap_calling.specs.Calling.{begun};

use std::alloc::Global;
use wap_base::{Limits, Text};
use wap_layout::buffer::Lines;
use wap_session::{Key, Session, SessionFault};
use wap_world::site::Pages;

/// The seed of random numbers.
pub const SEED: u32 = 1;

/// How many turns each key has.
pub const BUDGET: u32 = 1000;

/// A session in which nothing was done.
pub fn new_session(alloc: Global) -> Session
    ensures { result ≡ beginning begun }
{
    Session::new(alloc, SEED, BUDGET, Limits::default())
}

/// Plays keys in a new session, and gives the lines that they show.
///
/// # Errors
/// `Store` where a page couldn't be fetched, and `NoMemory`; the session is over then.
pub fn visit<P: Pages>(
    alloc: Global,
    session: &mut Session,
    keys: &[Key],
    pages: &mut P,
) -> Result<Lines, SessionFault>
    requires new { session.now ≡ beginning begun }
    ensures shown { IfOk result (λ lines. (judged : JudgedPages) → MayBe (P.seen pages.new) judged
        → lines ≡ shown_by (played push_at (site_of (unit_pages judged)) keys.now
        (unpushed (world_of begun))).step) }
    ensures waits { OnOk result ((judged : JudgedPages) → MayBe (P.seen pages.new) judged
        → is_some session.new.waiting
        ≡ (played push_at (site_of (unit_pages judged)) keys.now
        (unpushed (world_of begun))).step.is_open) }
{
    session.play(alloc, keys, pages)
}

/// Answers the dialog in which a session waits by a text, and gives the lines that follow; where
/// none waits, there are none.
///
/// # Errors
/// Those of `visit`.
pub fn accept_dialog<P: Pages>(
    alloc: Global,
    session: &mut Session,
    text: Text,
    pages: &mut P,
) -> Result<Lines, SessionFault>
    ensures answered { IfOk result (λ lines. is_some session.old.waiting ≡ true
        → IfOver (P.seen pages.new) session.old.browser
        (λ of. lines ≡ shown_of of (Answer text ∷ []) session.old)) }
    ensures untouched { is_some session.old.waiting ≡ false
        → (session.new ≡ session.old) × (pages.new ≡ pages.old) × (result ≡ Ok []) }
{
    if !session.in_dialog() {
        return Ok(Lines::new(alloc));
    }
    session.feed(alloc, &Key::Answer(text), pages)
}
