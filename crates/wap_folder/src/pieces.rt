//! The pieces into which jobs are cut, one for each worker.
ghost use Rattle.std.specs.Prelude.{◌≡◌, ℕ, ◌<◌, ◌≤◌, length, IfOk, IsOk, slice_range};
ghost use Rattle.std.specs.Prelude.{slice_index_or, vec_len};
ghost use Rattle.std.specs.List.{AllZip, flat_map};
ghost use Rattle.wap_folder.specs.Pieces.{piece_start, piece_items};

use crate::Work;
use std::alloc::Global;
use wap_base::NoMemory;
use wap_devices::Gate;

/// Where the piece of a number begins.
pub(crate) fn piece_start(len: usize, count: usize, k: usize) -> usize
    requires some { 0 < count }
    requires within { k ≤ count }
    ensures start { result ≡ piece_start len count k }
    ensures within { result ≤ len }
{
    k * (len / count) + k.min(len % count)
}

/// The answers for the jobs from one index to another, one after the other.
pub(crate) fn work_piece<W: Work, G: Gate>(
    alloc: Global,
    work: &W,
    jobs: &[W::Job],
    from: usize,
    to: usize,
    gate: &G,
) -> Result<Vec<W::Answer>, NoMemory>
    requires order { from ≤ to }
    requires within { to ≤ length jobs.now }
    ensures { IfOk result (λ answers. AllZip (W.right work.now) (slice_range jobs.now from to)
        answers.items) }
{
    let mut answers = Vec::new(alloc);
    for i in from..to {
        gate.pass(i);
        answers.push(work.work(&jobs[i]))?;
    }
    Ok(answers)
}

/// The answers of all pieces, in order.
pub(crate) fn join<A: Drop>(
    alloc: Global,
    pieces: Vec<Result<Vec<A>, NoMemory>>,
) -> Result<Vec<A>, NoMemory>
    ensures items { IfOk result (λ all. all.items ≡ flat_map piece_items pieces.items) }
    ensures each { IfOk result (λ _. (k : ℕ) (d : _) → k < vec_len pieces
        → IsOk (slice_index_or pieces.items k d)) }
{
    let mut all = Vec::new(alloc);
    for piece in pieces {
        let mut answers = piece?;
        all.append(&mut answers)?;
    }
    Ok(all)
}
