//! Making a folder, and browsing it.
ghost use Rattle.std.specs.Prelude.{IfOk};
ghost use Rattle.wap_cli.specs.made.Making.{Makes};
ghost use Rattle.wap_cli.specs.made.inside.Tours.{IsMade, IsTour};

use crate::Status;
use crate::made::judging::{count_accepted, names_in};
use crate::made::keys::keys_of;
use crate::made::playing::{Played, play};
use crate::made::report::report_on;
use std::alloc::Global;
use wap_base::{Bytes, NoMemory, RunErr, Text};
use wap_devices::{Failed, MemStore, Sink, are_pages, write_all};
use wap_keys::words::DEFAULT_CACHE;
use wap_make::folder_of;
use wap_pages::Cached;
use wap_world::site::Pages;

/// What the judging and the browsing of a made folder came to.
#[derive(Drop)]
pub(crate) struct Tour {
    /// How many pages there are.
    pub(crate) pages: usize,
    /// How many of them are accepted.
    pub(crate) accepted: usize,
    pub(crate) played: Played,
}

/// These pages in memory, as a browser asks for them.
fn pages_over(alloc: Global, folder: Vec<(Text, Bytes)>) -> Result<Cached<MemStore>, NoMemory>
    ensures { IfOk result (λ pages. IsMade folder.items
        (⟦<Cached<MemStore> as Pages>⟧.seen pages)) }
{
    // A made folder's names are distinct and its pages small, as a store wants them.
    if !are_pages(alloc, &folder)? {
        return Err(NoMemory);
    }
    let store = MemStore::new(folder, Vec::new(alloc));
    match Cached::new(alloc, store, DEFAULT_CACHE as usize) {
        Ok(pages) => Ok(pages),
        Err((_, fault)) => Err(fault),
    }
}

/// Makes the folder of a number, judges its pages and browses it.
fn go_round(alloc: Global, n: u32) -> Result<Tour, RunErr>
    ensures { IfOk result (IsTour n) }
{
    let folder = folder_of(alloc, n)?;
    let names = names_in(alloc, &folder)?;
    let keys = keys_of(alloc, names.len().saturating_sub(1))?;
    let mut pages = pages_over(alloc, folder)?;
    let accepted = count_accepted(alloc, &mut pages, &names)?;
    let played = play(alloc, &mut pages, &keys)?;
    Ok(Tour {
        pages: names.len(),
        accepted,
        played,
    })
}

/// Makes the folder of a number, judges its pages and browses it, and writes what that came to. A
/// store in memory has no fault.
pub fn make<O: Sink>(alloc: Global, n: u32, out: &mut O) -> Status
    ensures { Makes n (O.seen out.old) (O.seen out.new) result }
{
    let Ok(tour) = go_round(alloc, n) else {
        return Status::NoMemory;
    };
    let Ok(report) = report_on(alloc, &tour) else {
        return Status::NoMemory;
    };
    match write_all(out, report.as_slice()) {
        Ok(()) => Status::Done,
        Err(Failed) => Status::WriteFault,
    }
}
