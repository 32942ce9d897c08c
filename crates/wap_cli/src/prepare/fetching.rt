//! Pages that a store is asked for, one after the other.
ghost use Rattle.std.specs.Prelude.{◌≡◌, All, IfOk, length};
ghost use Rattle.std.specs.Map.{keys_of};
ghost use Rattle.wap_cli.specs.prepare.Fetching.{AsksForAll};
ghost use Rattle.wap_cli.specs.prepare.Fetching.{IsAnswered};

use crate::prepare::job::Job;
use std::alloc::Global;
use wap_base::Text;
use wap_devices::{Store, StoreErr};

/// What the store answers for a name, beside the name.
fn fetch_one<S: Store>(alloc: Global, store: &mut S, name: &Text) -> Result<Job, StoreErr>
    ensures name { IfOk result (λ job. job.0 ≡ name.now) }
    ensures answered { IfOk result (IsAnswered (S.seen store.new).known) }
    ensures asks { AsksForAll 1 (S.seen store.old) (S.seen store.new) result }
{
    let copy = match name.copy(alloc) {
        Ok(copy) => copy,
        Err(_) => return Err(StoreErr::NoMemory),
    };
    match store.fetch(name) {
        Ok(page) => Ok(Job::new(copy, page)),
        Err(fault) => Err(fault),
    }
}

/// What the store answers for each name.
pub fn fetch_all<S: Store>(
    alloc: Global,
    store: &mut S,
    names: &[Text],
) -> Result<Vec<Job>, StoreErr>
    ensures names { IfOk result (λ jobs. keys_of jobs.items ≡ names.now) }
    ensures answered { IfOk result (λ jobs. All (IsAnswered (S.seen store.new).known)
        jobs.items) }
    ensures asks { AsksForAll (length names.now) (S.seen store.old) (S.seen store.new) result }
{
    let mut jobs = match Vec::with_capacity(alloc, names.len()) {
        Ok(jobs) => jobs,
        Err(_) => return Err(StoreErr::NoMemory),
    };
    for name in names {
        match fetch_one(alloc, store, name) {
            Ok(job) => jobs.push(job)?,
            Err(fault) => return Err(fault),
        }
    }
    Ok(jobs)
}
