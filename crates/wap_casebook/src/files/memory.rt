//! The devices of a case in memory.
use crate::CaseFault;
use crate::files::Case;
use crate::files::case::Page;
use crate::files::numbers::{Numbers, Subject};
use std::alloc::Global;
use wap_base::{Bytes, NoMemory, Text};
use wap_devices::{MemSink, MemSource, MemStore, are_pages};

/// The most bytes that a call moves, where a case says nothing of it.
const PIECE: u64 = 4096;

/// How many bytes a sink holds, where a case says nothing of it.
const ROOM: u64 = 1 << 24;

/// The calls of a device that fail: those that a case says, and the one after those that are
/// wanted, where it says how many are.
fn failing_calls(
    alloc: Global,
    numbers: &Numbers,
    fails: Subject,
    calls: Subject,
) -> Result<Vec<u64>, NoMemory> {
    let mut fails = numbers.all(alloc, fails)?;
    if let Some(calls) = numbers.last(calls) {
        fails.push(calls.saturating_add(1))?;
    }
    Ok(fails)
}

/// A page, copied.
fn copy_page(alloc: Global, page: &Page) -> Result<(Text, Bytes), NoMemory> {
    let name = page.name.copy(alloc)?;
    Ok((name, Bytes::of(alloc, page.bytes.as_slice())?))
}

/// Pages, copied.
fn copy_pages(alloc: Global, pages: &[Page]) -> Result<Vec<(Text, Bytes)>, NoMemory> {
    let mut copied = Vec::new(alloc);
    for page in pages {
        copied.push(copy_page(alloc, page)?)?;
    }
    Ok(copied)
}

impl Case {
    /// How many bytes at a time its source gives, in one run each; or why it can't be played.
    pub fn pieces(&self, alloc: Global) -> Result<Vec<u64>, CaseFault> {
        if let Some((_, fault)) = self.fault {
            return Err(fault);
        }
        let mut pieces = self.numbers.all(alloc, Subject::SourceGives)?;
        if pieces.is_empty() {
            pieces.push(PIECE)?;
        }
        Ok(pieces)
    }

    /// Its pages as a store.
    pub fn store(&self, alloc: Global) -> Result<MemStore, CaseFault> {
        let pages = copy_pages(alloc, self.pages.as_slice())?;
        if !are_pages(alloc, &pages)? {
            return Err(CaseFault::Argument);
        }
        let fails = failing_calls(alloc, &self.numbers, Subject::StoreFails, Subject::Asked)?;
        Ok(MemStore::new(pages, fails))
    }

    /// Its keys as a source that gives so many bytes at a time.
    pub fn source(&self, alloc: Global, piece: u64) -> Result<MemSource, CaseFault> {
        let piece = usize::try_from(piece).unwrap_or(1);
        if piece == 0 {
            return Err(CaseFault::Argument);
        }
        let fails = failing_calls(alloc, &self.numbers, Subject::SourceFails, Subject::Reads)?;
        Ok(MemSource::new(Bytes::of(alloc, self.keys.as_slice())?, piece, fails))
    }

    /// The sink to which its run writes.
    pub fn sink(&self, alloc: Global) -> Result<MemSink, CaseFault> {
        let takes = self.numbers.last(Subject::SinkTakes).unwrap_or(PIECE) as usize;
        let holds = self.numbers.last(Subject::SinkHolds).unwrap_or(ROOM) as usize;
        if takes == 0 {
            return Err(CaseFault::Argument);
        }
        let fails = self.numbers.all(alloc, Subject::SinkFails)?;
        Ok(MemSink::new(alloc, holds, takes, fails)?)
    }

    /// The sink to which the line of the status is written.
    pub fn error(&self, alloc: Global) -> Result<MemSink, CaseFault> {
        let fails = self.numbers.all(alloc, Subject::ErrorFails)?;
        Ok(MemSink::new(alloc, 4096, 4096, fails)?)
    }
}
