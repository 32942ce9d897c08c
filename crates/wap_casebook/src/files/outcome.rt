//! What comes of a run over the devices of a case.
use crate::files::Case;
use crate::files::numbers::Subject;
use std::alloc::Global;
use wap_base::{Bytes, NoMemory};
use wap_devices::{MemSource, MemStore, Source, Store, StoreErr};

/// What came of a run.
#[derive(Drop)]
pub struct Outcome {
    /// What was written.
    pub(crate) shown: Bytes,
    /// The number of the status and its line.
    pub(crate) status: Bytes,
    /// The line of the status couldn't be written.
    pub(crate) is_unprinted: bool,
    /// The store was called as often as is wanted.
    pub(crate) is_asked: bool,
    /// The source was called as often as is wanted.
    pub(crate) is_read: bool,
    /// How many bytes the source has left.
    pub(crate) left: u64,
}

/// How many bytes a source has left. Calls of it that fail are passed over.
fn count_left(source: &mut MemSource) -> u64 {
    let mut count: u64 = 0;
    let mut buffer = [0; 4096];
    for _ in 0..u64::MAX {
        match source.read(&mut buffer) {
            Ok(0) => break,
            Ok(read) => count = count.saturating_add(read as u64),
            Err(_) => {}
        }
    }
    count
}

/// Whether the store was called as often as is wanted: where that is said, the next call fails.
fn is_asked(wanted: Option<u64>, store: &mut MemStore) -> bool {
    wanted.is_none() || matches!(store.list(), Err(StoreErr::Failed))
}

/// Whether the source was called as often as is wanted: where that is said, the next call fails.
fn is_read(wanted: Option<u64>, source: &mut MemSource) -> bool {
    wanted.is_none() || source.read(&mut [0; 1]).is_err()
}

/// The number of a status and its line, as a case says them.
fn status_line(alloc: Global, number: u8, line: &[u8]) -> Result<Bytes, NoMemory> {
    let mark = if line.is_empty() { "\n" } else { " " };
    let number = format!(in alloc; "{number}{mark}")?;
    let mut status = Bytes::of(alloc, number.as_bytes())?;
    status.add(line)?;
    Ok(status)
}

impl Outcome {
    /// What came of a run by the number of its status, the line of that and what was written,
    /// before its devices are looked at.
    pub fn new(
        alloc: Global,
        number: u8,
        line: &[u8],
        is_unprinted: bool,
        shown: &[u8],
    ) -> Result<Outcome, NoMemory> {
        Ok(Outcome {
            shown: Bytes::of(alloc, shown)?,
            status: status_line(alloc, number, line)?,
            is_unprinted,
            is_asked: true,
            is_read: true,
            left: 0,
        })
    }

    /// Looks at the store and the source of a case after its run.
    pub fn look_at(&mut self, case: &Case, store: &mut MemStore, source: &mut MemSource) {
        self.is_asked = is_asked(case.numbers.last(Subject::Asked), store);
        self.is_read = is_read(case.numbers.last(Subject::Reads), source);
        self.left = count_left(source);
    }
}
