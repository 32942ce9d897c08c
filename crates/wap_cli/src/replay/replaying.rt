//! Replaying lists of keys.
ghost use Rattle.std.specs.Prelude.{◌<◌};
ghost use Rattle.wap_base.specs.Limits.{AreInRange};
ghost use Rattle.wap_cli.specs.prepare.Working.{WorksOnAll};
ghost use Rattle.wap_cli.specs.Writing.{PutsTo};
ghost use Rattle.wap_world.specs.scripting.UnitSites.{unit_pages};
ghost use Rattle.wap_cli.specs.Networks.{network_of};
ghost use Rattle.wap_cli.specs.replay.Texts.{replayed};
ghost use Rattle.wap_cli.specs.browse.Beginning.{begun_with};
ghost use Rattle.wap_cli.specs.replay.Headline.{ReplaysSeen};
ghost use Rattle.wap_cli.specs.replay.inside.Jobs.{TellsOf};

use crate::Status;
use crate::browse::Beginning;
use crate::prepared::Prepared;
use crate::replay::playing::play_lists;
use crate::replay::preparing::prepare_pages;
use crate::replay::writing::write_texts;
use std::alloc::Global;
use std::marker::Sync;
use std::thread::Threads;
use wap_base::{NoMemory, Rows};
use wap_devices::{Failed, Gate, Sink, Source, Store, StoreErr};
use wap_keys::lists::read_lists;
use wap_keys::{Ending, Key};
use wap_pages::pages_are_judged;

/// Plays lists over pages that are ready, and writes what each comes to once all are played.
fn play_all<R: Threads + Sync, O: Sink, G: Gate + Sync>(
    rt: &R,
    alloc: Global,
    pages: &Prepared,
    begun: Beginning,
    lists: Vec<Rows<Key>>,
    workers: u8,
    gate: &G,
    out: &mut O,
) -> Status
    requires some { 0 < workers }
    requires limits { AreInRange begun.limits }
    ensures { PutsTo (replayed (network_of (unit_pages pages.now)) (begun_with begun) lists.items)
        (O.seen out.old) (O.seen out.new) result }
{
    let Ok(texts) = play_lists(rt, alloc, pages, begun, lists, workers, gate) else {
        return Status::NoMemory;
    };
    match write_texts(&texts, out) {
        Ok(()) => Status::Done,
        Err(Failed) => Status::WriteFault,
    }
}

/// Plays lists over the pages of the store.
fn replay_lists<R: Threads + Sync, S: Store, O: Sink, G: Gate + Sync>(
    rt: &R,
    alloc: Global,
    begun: Beginning,
    lists: Vec<Rows<Key>>,
    workers: u8,
    store: &mut S,
    gate: &G,
    out: &mut O,
) -> Status
    requires some { 0 < workers }
    requires limits { AreInRange begun.limits }
    ensures { WorksOnAll (TellsOf (begun_with begun) lists.items (S.seen store.new).known)
        (S.seen store.old) (S.seen store.new) (O.seen out.old) (O.seen out.new) result }
{
    pages_are_judged();
    let names = match store.list() {
        Ok(names) => names,
        Err(StoreErr::Failed) => return Status::StoreFault,
        Err(StoreErr::NoMemory) => return Status::NoMemory,
    };
    match prepare_pages(rt, alloc, store, &names, workers, gate) {
        Ok(pages) => play_all(rt, alloc, &pages, begun, lists, workers, gate, out),
        Err(StoreErr::Failed) => Status::StoreFault,
        Err(StoreErr::NoMemory) => Status::NoMemory,
    }
}

/// Reads lists of keys, and plays each by a session of its own over the pages of the store. What
/// each comes to is written once all are played. So many workers share the pages, and then the
/// lists.
///
/// The status is `Done` also where a list ends in a dialog, and `WriteFault` where a prefix was
/// written; with any other nothing is. `BadKey`, `TooManyKeys` and `KeyReadFault` come before
/// anything is asked of the store. `Usage`, `Refused` and `OpenDialog` never come.
pub fn replay<R: Threads + Sync, S: Store, I: Source, O: Sink, G: Gate + Sync>(
    rt: &R,
    alloc: Global,
    begun: Beginning,
    workers: u8,
    store: &mut S,
    keys: &mut I,
    gate: &G,
    out: &mut O,
) -> Status
    requires some { 0 < workers }
    requires limits { AreInRange begun.limits }
    ensures { ReplaysSeen (begun_with begun)
        (record { store = S.seen store.old; source = I.seen keys.old; sink = O.seen out.old })
        (record { store = S.seen store.new; source = I.seen keys.new; sink = O.seen out.new })
        result }
{
    let (lists, ending) = match read_lists(alloc, keys) {
        Ok(read) => read,
        Err(NoMemory) => return Status::NoMemory,
    };
    match ending {
        Ending::End => replay_lists(rt, alloc, begun, lists, workers, store, gate, out),
        Ending::BadKey { line, fault } => Status::BadKey { line, fault },
        Ending::TooManyKeys => Status::TooManyKeys,
        Ending::ReadFault => Status::KeyReadFault,
    }
}
