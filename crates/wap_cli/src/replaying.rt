//! Replaying lists of keys over a store.
ghost use Rattle.std.specs.Prelude.{◌<◌};
ghost use Rattle.wap_base.specs.Limits.{AreInRange};
ghost use Rattle.wap_cli.specs.Headline.{each_begun_by};
ghost use Rattle.wap_cli.specs.Replaying.{ReplaysOver};

use crate::Status;
use crate::replay::Beginning;
use std::alloc::Global;
use std::thread::Threads;
use wap_devices::{Gate, Sink, Source, Store};
use wap_keys::words::Replay;

/// Replays the lists of keys of the source as the words say, over the pages of the store.
pub(crate) fn replay<R: Threads + Sync, S: Store, I: Source, O: Sink, G: Gate + Sync>(
    rt: &R,
    alloc: Global,
    begun: Replay,
    store: &mut S,
    keys: &mut I,
    out: &mut O,
    gate: &G,
) -> Status
    requires some { 0 < begun.workers }
    requires limits { AreInRange begun.limits }
    ensures { ReplaysOver (each_begun_by begun)
        (record { store = S.seen store.old; source = I.seen keys.old; sink = O.seen out.old })
        (record { store = S.seen store.new; source = I.seen keys.new; sink = O.seen out.new })
        result }
{
    let workers = begun.workers;
    let begun = Beginning {
        url: begun.url,
        seed: begun.seed,
        budget: begun.budget,
        limits: begun.limits,
    };
    crate::replay::replay(rt, alloc, begun, workers, store, keys, gate, out)
}
