//! Browsing.
ghost use Rattle.std.specs.Prelude.{◌≡◌};
ghost use Rattle.wap_base.specs.Limits.{AreInRange};
ghost use Rattle.wap_cli.specs.browse.Headline.{BrowsesSeen};
ghost use Rattle.wap_cli.specs.browse.Resting.{Rests};
ghost use Rattle.wap_cli.specs.browse.Beginning.{begun_with};
ghost use Rattle.wap_cli.specs.browse.Plays.{opened};

use crate::Status;
use crate::browse::Beginning;
use crate::browse::playing::play;
use crate::browse::reading::play_keys;
use std::alloc::Global;
use wap_devices::{Sink, Source};
use wap_session::{Key, Session};
use wap_world::site::Pages;

/// Opens the URL, and then plays key after key: in a dialog they answer it. The lines of each are
/// written before the next is read. Gives the session back as it is then.
///
/// The status is `Done` where the keys end outside a dialog, and `OpenDialog` where they end in
/// one. With `BadKey`, `TooManyKeys` and `KeyReadFault` the lines of the key lines before were
/// written, with `StoreFault` and `NoMemory` those of some first keys, whole keys only, and with
/// `WriteFault` a prefix of what had to be written. `Usage` and `Refused` never come.
pub fn browse_session<P: Pages, I: Source, O: Sink>(
    alloc: Global,
    begun: Beginning,
    pages: &mut P,
    keys: &mut I,
    out: &mut O,
) -> (Status, Session)
    requires limits { AreInRange begun.limits }
    ensures browses { BrowsesSeen (opened (begun_with begun))
        (record { pages = P.seen pages.old; source = I.seen keys.old; sink = O.seen out.old })
        (record { pages = P.seen pages.new; source = I.seen keys.new; sink = O.seen out.new })
        result.0 }
    ensures rests { result.0 ≡ Status.Done → Rests (opened (begun_with begun))
        (record { pages = P.seen pages.old; source = I.seen keys.old; sink = O.seen out.old })
        (record { pages = P.seen pages.new; source = I.seen keys.new; sink = O.seen out.new })
        result.1 }
{
    let mut session = Session::new(alloc, begun.seed, begun.budget, begun.limits);
    let first = Key::Open(begun.url);
    if let Err(status) = play(alloc, &mut session, &first, pages, out) {
        return (status, session);
    }
    let status = play_keys(alloc, &mut session, pages, keys, out);
    (status, session)
}

/// Opens the URL, and then plays key after key, and ends as `browse_session` does.
pub fn browse<P: Pages, I: Source, O: Sink>(
    alloc: Global,
    begun: Beginning,
    pages: &mut P,
    keys: &mut I,
    out: &mut O,
) -> Status
    requires limits { AreInRange begun.limits }
    ensures { BrowsesSeen (opened (begun_with begun))
        (record { pages = P.seen pages.old; source = I.seen keys.old; sink = O.seen out.old })
        (record { pages = P.seen pages.new; source = I.seen keys.new; sink = O.seen out.new })
        result }
{
    browse_session(alloc, begun, pages, keys, out).0
}
