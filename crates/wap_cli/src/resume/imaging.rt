//! The command `image`.
ghost use Rattle.std.specs.Prelude.{◌<◌};
ghost use Rattle.wap_base.specs.Limits.{AreInRange};
ghost use Rattle.wap_cli.specs.browse.Beginning.{begun_with};
ghost use Rattle.wap_cli.specs.resume.Saving.{ImagesSeen};

use crate::Status;
use crate::browse::{Beginning, browse_session};
use crate::resume::nowhere::Nowhere;
use crate::resume::saving::save_context;
use std::alloc::Global;
use wap_devices::{Sink, Source};
use wap_world::site::Pages;

/// Plays keys as in browsing, and writes the image of the context in which they end outside a
/// dialog, in place of what they show. Each key has to have a turn at least.
///
/// Where the keys don't come to `Done` it ends as they do, and writes nothing. Else it is `Done`
/// with the image written, `WriteFault` with a prefix of it, or it writes nothing: `NoMemory`, and
/// `Refused` where there is no image (`Drawn`, `Card`).
pub fn image<P: Pages, I: Source, O: Sink>(
    alloc: Global,
    begun: Beginning,
    pages: &mut P,
    keys: &mut I,
    out: &mut O,
) -> Status
    requires limits { AreInRange begun.limits }
    requires turns { 0 < begun.budget }
    ensures { ImagesSeen (begun_with begun)
        (record { pages = P.seen pages.old; source = I.seen keys.old; sink = O.seen out.old })
        (record { pages = P.seen pages.new; source = I.seen keys.new; sink = O.seen out.new })
        result }
{
    let turns = begun.budget;
    let mut dropped = Nowhere::new();
    let (status, session) = browse_session(alloc, begun, pages, keys, &mut dropped);
    let Status::Done = status else {
        return status;
    };
    let Some(context) = session.context() else {
        unreachable!();
    };
    save_context(alloc, context, turns, out)
}
