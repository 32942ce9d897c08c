//! Playing a key.
ghost use Rattle.std.specs.Prelude.{◌≡◌, ◌∷◌, [], false};
ghost use Rattle.wap_world.specs.declared.refusal.Refusal.TheVariants.{Ignored};
ghost use Rattle.wap_world.specs.Lines.{refusal_line};
ghost use Rattle.wap_cli.specs.browse.inside.Played.{Plays};

use crate::Status;
use std::alloc::Global;
use wap_devices::{Failed, Sink, write_all};
use wap_layout::buffer::Lines;
use wap_session::{Key, Session, SessionFault};
use wap_world::site::Pages;

/// Plays a key, and writes the lines that it shows; or answers how the session ends.
pub(crate) fn play<P: Pages, O: Sink>(
    alloc: Global,
    session: &mut Session,
    key: &Key,
    pages: &mut P,
    out: &mut O,
) -> Result<(), Status>
    requires { session.old.is_over ≡ false }
    ensures { Plays key.now
        (record { pages = P.seen pages.old; state = session.old; sink = O.seen out.old })
        (record { pages = P.seen pages.new; state = session.new; sink = O.seen out.new })
        result }
{
    let lines = match session.feed(alloc, key, pages) {
        Ok(lines) => lines,
        Err(SessionFault::Store) => return Err(Status::StoreFault),
        Err(SessionFault::NoMemory) => return Err(Status::NoMemory),
        Err(SessionFault::Ended) => unreachable!(),
    };
    match write_all(out, lines.as_written()) {
        Ok(()) => Ok(()),
        Err(Failed) => Err(Status::WriteFault),
    }
}

/// Plays a key that was read, and that nothing needs afterwards. One that fits nothing shows the
/// line of that, which is made already.
pub(crate) fn play_read<P: Pages, O: Sink>(
    alloc: Global,
    session: &mut Session,
    key: Key,
    ignored: &Lines,
    pages: &mut P,
    out: &mut O,
) -> Result<(), Status>
    requires going { session.old.is_over ≡ false }
    requires ignored { ignored.now ≡ refusal_line Ignored ∷ [] }
    ensures { Plays key
        (record { pages = P.seen pages.old; state = session.old; sink = O.seen out.old })
        (record { pages = P.seen pages.new; state = session.new; sink = O.seen out.new })
        result }
{
    if !session.try_ignore(&key) {
        return play(alloc, session, &key, pages, out);
    }
    match write_all(out, ignored.as_written()) {
        Ok(()) => Ok(()),
        Err(Failed) => Err(Status::WriteFault),
    }
}
