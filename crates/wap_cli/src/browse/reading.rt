//! Playing the keys of a source.
ghost use Rattle.std.specs.Prelude.{◌≡◌, [], false};
ghost use Rattle.wap_cli.specs.browse.Headline.{BrowsesSeen};
ghost use Rattle.wap_cli.specs.browse.Resting.{Rests};
ghost use Rattle.wap_cli.specs.browse.Plays.{Play};
ghost use Rattle.wap_cli.specs.browse.Standing.{Moved, outside_of, Browsed};

use crate::Status;
use crate::browse::ending::status_of;
use crate::browse::playing::play_read;
use std::alloc::Global;
use wap_base::NoMemory;
use wap_devices::{Sink, Source};
use wap_keys::{Next, Reader};
use wap_session::{Session, refusal_lines};
use wap_world::Refusal;
use wap_world::site::Pages;

/// Plays key after key of a source in a session in which nothing failed: in a dialog they answer
/// it. The lines of each are written before the next is read. Whatever led to here, keys come from
/// there to what they come to.
pub fn play_keys<P: Pages, I: Source, O: Sink>(
    alloc: Global,
    session: &mut Session,
    pages: &mut P,
    keys: &mut I,
    out: &mut O,
) -> Status
    requires { session.old.is_over ≡ false }
    ensures browses { (play : Play) (from : Moved) → Browsed play [] from
        (record { pages = P.seen pages.old; sink = O.seen out.old }) session.old
        → BrowsesSeen play (outside_of from (I.seen keys.old))
        (record { pages = P.seen pages.new; source = I.seen keys.new; sink = O.seen out.new })
        result }
    ensures rests { (play : Play) (from : Moved) → Browsed play [] from
        (record { pages = P.seen pages.old; sink = O.seen out.old }) session.old
        → result ≡ Status.Done
        → Rests play (outside_of from (I.seen keys.old))
        (record { pages = P.seen pages.new; source = I.seen keys.new; sink = O.seen out.new })
        session.new }
{
    let mut reader = Reader::new(alloc);
    let Ok(ignored) = refusal_lines(alloc, Refusal::Ignored) else {
        return Status::NoMemory;
    };
    loop {
        let key = match reader.next(alloc, keys) {
            Ok(Next::Key(key)) => key,
            Ok(Next::Ended(ending)) => return status_of(session.in_dialog(), ending),
            Err(NoMemory) => return Status::NoMemory,
        };
        if let Err(status) = play_read(alloc, session, key, &ignored, pages, out) {
            return status;
        }
    }
}
