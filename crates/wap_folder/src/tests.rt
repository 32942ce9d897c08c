//! That four jobs are at work at once, and answers for some numbers of jobs and workers.
ghost use Rattle.std.specs.Prelude.{◌≡◌, ◌*◌};

use crate::{Work, run_jobs};
use std::alloc::Global;
use std::sync::atomic::{AtomicU64, Ordering};
use std::test::Fail;
use std::thread;
use wap_devices::{Gate, NoGate};

/// How often a job looks for the others before it gives up.
const TURNS: u64 = 100_000_000;

/// After so many looks a job lets other threads run.
const LOOKS: u64 = 1024;

/// Squares of numbers.
#[derive(Drop)]
struct Squares;

impl Work for Squares {
    type Job = u32;

    type Answer = u64;

    ghost right = { λ _ job answer. answer ≡ job * job };

    fn work(&self, job: &u32) -> u64 {
        u64::from(*job) * u64::from(*job)
    }
}

/// Where each job waits until four have come that haven't met yet, so that each four meet.
#[derive(Drop)]
struct Meeting {
    came: AtomicU64,
    failures: AtomicU64,
}

impl Gate for Meeting {
    fn pass(&self, _job: usize) {
        let last = self.came.fetch_add(1, Ordering::SeqCst) | 3;
        for turn in 0..TURNS {
            if self.came.load(Ordering::SeqCst) > last {
                return;
            }
            if turn % LOOKS == 0 {
                thread::yield_now();
            }
        }
        self.failures.fetch_add(1, Ordering::SeqCst);
    }
}

#[test]
fn four_workers_meet_at_each_job(rt: HostRuntime) -> Result<(), Fail> {
    let gate = Meeting {
        came: AtomicU64::new(0),
        failures: AtomicU64::new(0),
    };
    let jobs = [1, 2, 3, 4, 5, 6, 7, 8, 9, 10, 11, 12];
    let all = [1u64, 4, 9, 16, 25, 36, 49, 64, 81, 100, 121, 144];
    let answers = run_jobs(&rt, rt.alloc(), &Squares, &jobs, 4, &gate)?;
    assert_eq!(rt; answers.as_slice(), all.as_slice());
    assert_eq!(rt; gate.failures.load(Ordering::SeqCst), 0);
    assert_eq!(rt; gate.came.load(Ordering::SeqCst), 12);
    Ok(())
}

#[test]
fn in_order(rt: HostRuntime) -> Result<(), Fail> {
    let jobs = [1, 2, 3, 4, 5, 6, 7];
    let all = [1u64, 4, 9, 16, 25, 36, 49];
    for workers in [1u8, 2, 8, 64] {
        let answers = run_jobs(&rt, rt.alloc(), &Squares, &jobs, workers, &NoGate)?;
        assert_eq!(rt; answers.as_slice(), all.as_slice());
        let none = run_jobs(&rt, rt.alloc(), &Squares, &[], workers, &NoGate)?;
        assert_eq!(rt; none.len(), 0);
    }
    Ok(())
}
