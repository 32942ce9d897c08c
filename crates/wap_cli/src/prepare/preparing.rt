//! Preparing a folder.
ghost use Rattle.std.specs.Prelude.{◌<◌, ◌≡◌, All, IfOk, length};
ghost use Rattle.std.specs.List.{AllZip};
ghost use Rattle.std.specs.Map.{keys_of};
ghost use Rattle.wap_cli.specs.prepare.Reports.{IsEntry, report};
ghost use Rattle.wap_cli.specs.prepare.Fetching.{AsksForAll};
ghost use Rattle.wap_cli.specs.prepare.Preparing.{Prepares};
ghost use Rattle.wap_cli.specs.prepare.inside.Jobs.{IsRight};
ghost use Rattle.wap_cli.specs.Writing.{PutsTo};

use crate::Status;
use crate::prepare::fetching::fetch_all;
use crate::prepare::job::Job;
use crate::prepare::judging::{Judging, all_answers};
use crate::prepare::report::report_on;
use std::alloc::Global;
use std::marker::Sync;
use std::thread::Threads;
use wap_base::{NoMemory, Text};
use wap_devices::{Failed, Gate, Sink, Store, StoreErr, write_all};
use wap_folder::run_jobs;
use wap_pages::PageFault;

/// How many pages each worker is given at a time.
const PAGES_EACH: usize = 16;

/// What each page is judged that a store answered.
fn judge_pages<R: Threads + Sync, G: Gate + Sync>(
    rt: &R,
    alloc: Global,
    jobs: &[Job],
    workers: u8,
    gate: &G,
) -> Result<Vec<(Text, Option<PageFault>)>, NoMemory>
    requires { 0 < workers }
    ensures { IfOk result (λ entries. AllZip IsRight jobs.now entries.items) }
{
    let work = Judging { alloc };
    let answers = run_jobs(rt, alloc, &work, jobs, workers, gate)?;
    all_answers(alloc, answers)
}

/// What the page of each of some names is judged. So many workers share the pages.
fn judge_some<R: Threads + Sync, S: Store, G: Gate + Sync>(
    rt: &R,
    alloc: Global,
    store: &mut S,
    names: &[Text],
    workers: u8,
    gate: &G,
) -> Result<Vec<(Text, Option<PageFault>)>, StoreErr>
    requires { 0 < workers }
    ensures names { IfOk result (λ entries. keys_of entries.items ≡ names.now) }
    ensures right { IfOk result (λ entries. All (IsEntry (S.seen store.new).known)
        entries.items) }
    ensures asks { AsksForAll (length names.now) (S.seen store.old) (S.seen store.new) result }
{
    let jobs = match fetch_all(alloc, store, names) {
        Ok(jobs) => jobs,
        Err(fault) => return Err(fault),
    };
    match judge_pages(rt, alloc, &jobs, workers, gate) {
        Ok(entries) => Ok(entries),
        Err(NoMemory) => Err(StoreErr::NoMemory),
    }
}

/// What the page of each name is judged. The pages are fetched and judged in parts, one after the
/// other, so that no more of them are in memory than those of one part.
fn judge_all<R: Threads + Sync, S: Store, G: Gate + Sync>(
    rt: &R,
    alloc: Global,
    store: &mut S,
    names: &[Text],
    workers: u8,
    gate: &G,
) -> Result<Vec<(Text, Option<PageFault>)>, StoreErr>
    requires { 0 < workers }
    ensures names { IfOk result (λ entries. keys_of entries.items ≡ names.now) }
    ensures right { IfOk result (λ entries. All (IsEntry (S.seen store.new).known)
        entries.items) }
    ensures asks { AsksForAll (length names.now) (S.seen store.old) (S.seen store.new) result }
{
    let most = PAGES_EACH * usize::from(workers);
    let mut entries = Vec::new(alloc);
    let mut left = names;
    while !left.is_empty() {
        let (some, rest) = left.split_at(most.min(left.len()));
        match judge_some(rt, alloc, store, some, workers, gate) {
            Ok(mut more) => entries.append(&mut more)?,
            Err(fault) => return Err(fault),
        }
        left = rest;
    }
    Ok(entries)
}

/// Writes the report on these pages.
fn write_report<O: Sink>(
    alloc: Global,
    entries: &[(Text, Option<PageFault>)],
    out: &mut O,
) -> Status
    ensures { PutsTo (report entries.now) (O.seen out.old) (O.seen out.new) result }
{
    let Ok(text) = report_on(alloc, entries) else {
        return Status::NoMemory;
    };
    match write_all(out, text.as_slice()) {
        Ok(()) => Status::Done,
        Err(Failed) => Status::WriteFault,
    }
}

/// Judges all pages of the store, and writes the report on them once all are judged. So many
/// workers share the pages.
///
/// The status is `Done` also where pages are refused, and `WriteFault` where a prefix of the report
/// was written. With `StoreFault` and `NoMemory` nothing is, and no other status comes.
pub fn prepare<R: Threads + Sync, S: Store, O: Sink, G: Gate + Sync>(
    rt: &R,
    alloc: Global,
    store: &mut S,
    workers: u8,
    gate: &G,
    out: &mut O,
) -> Status
    requires { 0 < workers }
    ensures { Prepares (S.seen store.old) (S.seen store.new) (O.seen out.old) (O.seen out.new)
        result }
{
    let names = match store.list() {
        Ok(names) => names,
        Err(StoreErr::Failed) => return Status::StoreFault,
        Err(StoreErr::NoMemory) => return Status::NoMemory,
    };
    match judge_all(rt, alloc, store, &names, workers, gate) {
        Ok(entries) => write_report(alloc, &entries, out),
        Err(StoreErr::Failed) => Status::StoreFault,
        Err(StoreErr::NoMemory) => Status::NoMemory,
    }
}
