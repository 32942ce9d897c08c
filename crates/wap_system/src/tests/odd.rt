//! The store over a system that gives odd answers.
use crate::FolderStore;
use crate::tests::expected::{expect, row_of, word_of};
use std::alloc::{Allocator, Global};
use std::fs::{File, Metadata, OpenOptions};
use std::io;
use std::io::{Error, ErrorKind, Read};
use std::rt::Files;
use std::test::Fail;
use wap_base::Text;
use wap_devices::Store;

/// A system whose folders hold these names, each ended by a NUL, and whose files have this length
/// and can't be opened, for this reason. The empty path is a folder's.
#[derive(Clone, Copy)]
struct Odd {
    names: &'static [u8],
    len: u64,
    reason: ErrorKind,
}

/// What is left of the names.
#[derive(Drop)]
struct Listing(&'static [u8]);

impl Read for Listing {
    fn read(&mut self, buffer: &mut [u8]) -> io::Result<usize> {
        let count = self.0.len().min(buffer.len());
        let (front, rest) = self.0.split_at(count);
        buffer[..count].copy_from_slice(front);
        self.0 = rest;
        Ok(count)
    }
}

fn refuse<T>() -> io::Result<T> {
    Err(Error::from(ErrorKind::NotFound))
}

impl Files for Odd {
    type File = File;

    type Dir = Listing;

    fn open_file(&self, _how: &OpenOptions, _path: &str) -> io::Result<File> {
        Err(Error::from(self.reason))
    }

    fn open_dir(&self, _path: &str) -> io::Result<Listing> {
        Ok(Listing(self.names))
    }

    fn metadata(&self, path: &str) -> io::Result<Metadata> {
        Ok(if path.is_empty() {
            Metadata::of_dir()
        } else {
            Metadata::of_file(self.len)
        })
    }

    fn symlink_metadata(&self, _path: &str) -> io::Result<Metadata> {
        Ok(Metadata::of_file(self.len))
    }

    fn copy(&self, _from: &str, _to: &str) -> io::Result<u64> {
        refuse()
    }

    fn rename(&self, _from: &str, _to: &str) -> io::Result<()> {
        refuse()
    }

    fn remove_file(&self, _path: &str) -> io::Result<()> {
        refuse()
    }

    fn create_dir(&self, _path: &str) -> io::Result<()> {
        refuse()
    }

    fn remove_dir(&self, _path: &str) -> io::Result<()> {
        refuse()
    }

    fn remove_dir_all<B: Allocator>(&self, _alloc: B, _path: &str) -> io::Result<()> {
        refuse()
    }
}

/// The store of an odd system.
fn store_of(alloc: Global, odd: Odd) -> FolderStore<(Odd, Global)> {
    FolderStore::new((odd, alloc), String::new(alloc))
}

/// Expects what an odd system's store answers for a page.
fn expect_answer(rt: &HostRuntime, reason: ErrorKind, len: u64, wanted: &str) -> Result<(), Fail> {
    let odd = Odd {
        names: b"",
        len,
        reason,
    };
    let mut store = store_of(rt.alloc(), odd);
    expect(
        word_of(&store.fetch(&Text::of(rt.alloc(), "page")?)),
        wanted,
    )
}

/// A file that may not be read is a fault, and not a page that is missing. A file that could be
/// opened no more is missing; one that is too long isn't opened.
#[test]
fn what_may_not_be_read_is_a_fault(rt: HostRuntime) -> Result<(), Fail> {
    expect_answer(&rt, ErrorKind::PermissionDenied, 4, "failed")?;
    expect_answer(&rt, ErrorKind::NotFound, 4, "missing")?;
    expect_answer(&rt, ErrorKind::NotFound, (1 << 31) - 1, "missing")?;
    expect_answer(&rt, ErrorKind::NotFound, 1 << 31, "failed")
}

/// Expects what an odd system's store lists.
fn expect_list(rt: &HostRuntime, names: &'static [u8], wanted: &str) -> Result<(), Fail> {
    let odd = Odd {
        names,
        len: 4,
        reason: ErrorKind::NotFound,
    };
    let mut store = store_of(rt.alloc(), odd);
    expect(row_of(rt.alloc(), store.list())?.as_str(), wanted)
}

/// Names that are no UTF-8, and names that are given twice, are faults.
#[test]
fn names_are_utf_8_and_stand_once(rt: HostRuntime) -> Result<(), Fail> {
    expect_list(&rt, b"b\0a\0", "a b ")?;
    expect_list(&rt, b"a\0\xff\0", "failed")?;
    expect_list(&rt, b"a\0a\0", "failed")
}
