//! The pages of a folder, made ready for sessions.
ghost use Rattle.std.specs.Prelude.{◌<◌, ◌≡◌, IfOk, length};
ghost use Rattle.std.specs.List.{AllZip};
ghost use Rattle.wap_base.specs.Contents.{Contents};
ghost use Rattle.wap_base.specs.Texts.{AreAscending};
ghost use Rattle.wap_devices.specs.Stores.{Agrees};
ghost use Rattle.wap_cli.specs.prepare.Fetching.{AsksForAll};
ghost use Rattle.wap_cli.specs.replay.inside.Jobs.{IsJudged, is_there, present, pages_named};

use crate::prepare::{Job, all_answers, fetch_all};
use crate::prepared::Prepared;
use crate::replay::judging::Judging;
use std::alloc::Global;
use std::marker::Sync;
use std::thread::Threads;
use wap_base::{NoMemory, Rows, Text};
use wap_devices::{Gate, Store, StoreErr};
use wap_folder::run_jobs;
use wap_world::site::Page;

/// Whether there is a page.
fn is_there(page: &Page) -> bool
    ensures { result ≡ is_there page.now }
{
    match page {
        Page::Deck(_) | Page::Script(_) | Page::Words(_) | Page::Refused => true,
        Page::Missing => false,
    }
}

/// The pages that are there, in order.
fn present(mut pages: Vec<(Text, Page)>) -> Rows<(Text, Page)>
    ensures { result ≡ present pages.items }
{
    pages.retain(|page| is_there(&page.1));
    Rows::from_vec(pages)
}

/// What each page is judged that a store answered.
fn judge_pages<R: Threads + Sync, G: Gate + Sync>(
    rt: &R,
    alloc: Global,
    jobs: &[Job],
    workers: u8,
    gate: &G,
) -> Result<Vec<(Text, Page)>, NoMemory>
    requires { 0 < workers }
    ensures { IfOk result (λ pages. AllZip IsJudged jobs.now pages.items) }
{
    let work = Judging { alloc };
    let answers = run_jobs(rt, alloc, &work, jobs, workers, gate)?;
    all_answers(alloc, answers)
}

/// The pages of these names that are there, judged by so many workers.
pub(crate) fn prepare_pages<R: Threads + Sync, S: Store, G: Gate + Sync>(
    rt: &R,
    alloc: Global,
    store: &mut S,
    names: &[Text],
    workers: u8,
    gate: &G,
) -> Result<Prepared, StoreErr>
    requires some { 0 < workers }
    requires ascending { AreAscending names.now }
    ensures pages { IfOk result (λ pages. (contents : Contents)
        → Agrees (S.seen store.new).known contents → pages ≡ pages_named contents names.now) }
    ensures asks { AsksForAll (length names.now) (S.seen store.old) (S.seen store.new) result }
{
    let jobs = match fetch_all(alloc, store, names) {
        Ok(jobs) => jobs,
        Err(fault) => return Err(fault),
    };
    match judge_pages(rt, alloc, &jobs, workers, gate) {
        Ok(pages) => Ok(Prepared::new(present(pages))),
        Err(NoMemory) => Err(StoreErr::NoMemory),
    }
}
