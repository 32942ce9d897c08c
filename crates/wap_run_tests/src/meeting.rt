//! A gate at which each four jobs wait for each other.
use std::sync::atomic::{AtomicU64, Ordering};
use std::thread;
use wap_devices::Gate;

/// How often a job looks for the others before it gives up.
const TURNS: u64 = 100_000_000;

/// After so many looks a job lets other threads run.
const LOOKS: u64 = 1024;

/// Where each job waits until four have come that haven't met yet, so that each four meet.
#[derive(Drop)]
pub(crate) struct Meeting {
    pub(crate) came: AtomicU64,
    pub(crate) failures: AtomicU64,
}

impl Meeting {
    pub(crate) fn new() -> Meeting {
        Meeting {
            came: AtomicU64::new(0),
            failures: AtomicU64::new(0),
        }
    }
}

impl Gate for Meeting {
    fn pass(&self, _job: usize) {
        let last = self.came.fetch_add(1, Ordering::SeqCst) | 3;
        for turn in 0..TURNS {
            if self.came.load(Ordering::SeqCst) > last {
                return;
            }
            if turn % LOOKS == 0 {
                thread::yield_now();
            }
        }
        self.failures.fetch_add(1, Ordering::SeqCst);
    }
}
