//! Jobs that workers share.
ghost use Rattle.std.specs.Prelude.{◌≡◌, ◌+◌, ◌<◌, length, IfOk, slice_range};
ghost use Rattle.std.specs.List.{AllZip};
ghost use Rattle.wap_folder.specs.Pieces.{piece_start};

use crate::pieces::{join, piece_start, work_piece};
use std::alloc::Global;
use std::marker::{Send, Sync};
use std::thread;
use std::thread::Threads;
use wap_base::NoMemory;
use wap_devices::Gate;

/// Work that is done on jobs, on each by itself. One that takes memory holds its allocator.
pub trait Work {
    /// What is worked on.
    type Job: Sync;
    /// What comes of it.
    type Answer: Send + Drop;

    /// Which answers are right for a job.
    ghost right: { Self → Self.Job → Self.Answer → Type 0 };

    /// A right answer for the job.
    fn work(&self, job: &Self::Job) -> Self::Answer
        ensures { right self.now job.now result };
}

/// For each job a right answer, in the order of the jobs. So many workers share the jobs: each
/// has a piece of them, and does its jobs one after the other. Each job passes the gate before its
/// work.
///
/// # Errors
/// Memory ran out for the answers. What a job came to is no error here.
pub fn run_jobs<R: Threads + Sync, W: Work + Sync, G: Gate + Sync>(
    rt: &R,
    alloc: Global,
    work: &W,
    jobs: &[W::Job],
    workers: u8,
    gate: &G,
) -> Result<Vec<W::Answer>, NoMemory>
    requires { 0 < workers }
    ensures { IfOk result (λ answers. AllZip (W.right work.now) jobs.now answers.items) }
{
    let len = jobs.len();
    let count = len.min(usize::from(workers));
    let piece = |k: usize| -> Result<Vec<W::Answer>, NoMemory>
        requires { (k < count) × (len ≡ length jobs.now) }
        ensures { IfOk result (λ answers. AllZip (W.right work.entry.now)
            (slice_range jobs.entry.now (piece_start len count k) (piece_start len count (k + 1)))
            answers.items) }
    {
        let from = piece_start(len, count, k);
        let to = piece_start(len, count, k + 1);
        work_piece(alloc, work, jobs, from, to, gate)
    };
    let pieces = thread::map_indices(rt, alloc, count, &piece)?;
    join(alloc, pieces)
}
