//! A session over a made folder.
ghost use Rattle.std.specs.Prelude.{◌≡◌, IfOk, OnOk};
ghost use Rattle.wap_world.specs.site.Asking.{MayBe, Stays};
ghost use Rattle.wap_world.specs.site.Pages.{Pages as JudgedPages};
ghost use Rattle.wap_world.specs.scripting.UnitSites.{unit_pages};
ghost use Rattle.wap_context.specs.Sites.{site_of};
ghost use Rattle.wap_cli.specs.made.Making.{value_in};
ghost use Rattle.wap_cli.specs.made.inside.Tours.{IsPlayed};

use std::alloc::Global;
use wap_base::{Key, Limits, NoMemory, RunErr};
use wap_keys::words::{DEFAULT_BUDGET, DEFAULT_SEED};
use wap_layout::buffer::Lines;
use wap_session::{Session, SessionFault};
use wap_world::site::Pages;

/// What the keys of a session came to.
#[derive(Drop)]
pub(crate) struct Played {
    /// How many lines they show.
    pub(crate) lines: usize,
    /// The text that the variable `t` has then.
    pub(crate) sum: Vec<u8>,
}

/// The text of the variable `t` in the lines of variables, or nothing where it isn't among them.
fn value_in(lines: &Lines) -> &[u8]
    ensures { result.now ≡ value_in lines.now }
{
    for line in lines.each() {
        let bytes = line.as_bytes();
        if bytes.starts_with(b"$ t=") {
            return &bytes[4..];
        }
    }
    b""
}

/// So many lines, and a copy of the text.
fn copied(alloc: Global, lines: usize, sum: &[u8]) -> Result<Played, NoMemory>
    ensures { IfOk result (λ played. (played.lines ≡ lines) × (played.sum.items ≡ sum.now)) }
{
    let sum = Vec::from_slice(alloc, sum)?;
    Ok(Played { lines, sum })
}

/// Why a run ended of which a session gave no lines.
fn fault_of(fault: SessionFault) -> RunErr {
    match fault {
        SessionFault::Store => RunErr::Store,
        SessionFault::NoMemory | SessionFault::Ended => RunErr::NoMemory,
    }
}

/// Plays keys from the beginning of a session, and then looks at the variables.
pub(crate) fn play<P: Pages>(alloc: Global, pages: &mut P, keys: &[Key]) -> Result<Played, RunErr>
    ensures played { IfOk result (λ played. (known : JudgedPages) → MayBe (P.seen pages.new) known
        → IsPlayed (site_of (unit_pages known)) keys.now played) }
    ensures stays { OnOk result (Stays (P.seen pages.old) (P.seen pages.new)) }
{
    let mut session = Session::new(alloc, DEFAULT_SEED, DEFAULT_BUDGET, Limits::default());
    let lines = match session.play(alloc, keys, pages) {
        Ok(lines) => lines,
        Err(fault) => return Err(fault_of(fault)),
    };
    let variables = match session.feed(alloc, &Key::Vars, pages) {
        Ok(variables) => variables,
        Err(fault) => return Err(fault_of(fault)),
    };
    Ok(copied(alloc, lines.len(), value_in(&variables))?)
}
