//! That pages are judged, and lists of keys played, side by side.

use crate::meeting::Meeting;
use std::alloc::Global;
use std::sync::atomic::Ordering;
use std::test::Fail;
use wap_base::{Bytes, NoMemory, Text};
use wap_cli::{Status, run};
use wap_devices::{MemSink, MemSource, MemStore, are_pages};

/// A document whose one card shows `Hi`.
const HI: [u8; 14] = [3, 10, 106, 0, 127, 103, 96, 3, 72, 105, 0, 1, 1, 1];

/// Eight lists, by twos: one goes back, and the other asks for the variables.
const LISTS: &[u8] = b"back\n%\nvars\n%\nback\n%\nvars\n%\nback\n%\nvars\n%\nback\n%\nvars\n";

/// Eight pages that show the same.
fn eight_pages(alloc: Global) -> Result<Vec<(Text, Bytes)>, NoMemory> {
    let mut pages = Vec::new(alloc);
    for number in 0..8 {
        let path = format!(in alloc; "h/{number}.wmlc")?;
        pages.push((Text::from_string(path), Bytes::of(alloc, &HI)?))?;
    }
    Ok(pages)
}

/// The words of a replay with four workers.
fn words(alloc: Global) -> Result<Vec<Text>, NoMemory> {
    let mut words = Vec::new(alloc);
    words.push(Text::of(alloc, "replay")?)?;
    words.push(Text::of(alloc, "http://h/0.wmlc")?)?;
    words.push(Text::of(alloc, "--workers=4")?)?;
    Ok(words)
}

/// What the lists come to.
fn shown(alloc: Global) -> Result<String, NoMemory> {
    let opened = "> GET http://h/0.wmlc\n=\nHi\n";
    let mut shown = String::new(alloc);
    for (back, vars) in [(1, 2), (3, 4), (5, 6), (7, 8)] {
        let two = format!(in alloc; "% {back} 0\n{opened}! first\n=\nHi\n% {vars} 0\n{opened}")?;
        shown.push_str(two.as_str())?;
    }
    Ok(shown)
}

#[test]
fn four_pages_and_four_lists_meet_twice(rt: HostRuntime) -> Result<(), Fail> {
    let alloc: Global = rt.alloc();
    let pages = eight_pages(alloc)?;
    let fit = are_pages(alloc, &pages)?;
    assert!(rt; fit);
    let words = words(alloc)?;
    let store = MemStore::new(pages, Vec::new(alloc));
    let lines = Bytes::of(alloc, LISTS)?;
    let mut keys = MemSource::new(lines, 4096, Vec::new(alloc));
    let mut out = MemSink::new(alloc, 4096, 4096, Vec::new(alloc))?;
    let gate = Meeting::new();
    let (status, _store) = run(&rt, alloc, &words, store, &mut keys, &mut out, &gate);
    assert!(rt; status == Status::Done);
    let shown = shown(alloc)?;
    assert_eq!(rt; out.bytes(), shown.as_bytes());
    assert_eq!(rt; gate.failures.load(Ordering::SeqCst), 0);
    assert_eq!(rt; gate.came.load(Ordering::SeqCst), 16);
    Ok(())
}
