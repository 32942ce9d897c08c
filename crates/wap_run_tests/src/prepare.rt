//! That the pages of a folder are judged side by side.

use crate::meeting::Meeting;
use std::alloc::Global;
use std::sync::atomic::Ordering;
use std::test::Fail;
use wap_base::{Bytes, Text};
use wap_cli::{Status, run};
use wap_devices::{MemSink, MemSource, MemStore, are_pages};

#[test]
fn four_pages_meet_twice(rt: HostRuntime) -> Result<(), Fail> {
    let alloc: Global = rt.alloc();
    let mut pages = Vec::new(alloc);
    let mut shown = String::new(alloc);
    for number in 0..8 {
        let path = format!(in alloc; "h/{number}.txt")?;
        shown.push_str(path.as_str())?;
        shown.push_str(" text ok\n")?;
        pages.push((Text::from_string(path), Bytes::of(alloc, b"a")?))?;
    }
    shown.push_str("pages 8 ok 8\n")?;
    let fit = are_pages(alloc, &pages)?;
    assert!(rt; fit);
    let mut words = Vec::new(alloc);
    words.push(Text::of(alloc, "prepare")?)?;
    words.push(Text::of(alloc, "--workers=4")?)?;
    let store = MemStore::new(pages, Vec::new(alloc));
    let mut keys = MemSource::new(Bytes::new(alloc), 1, Vec::new(alloc));
    let mut out = MemSink::new(alloc, 4096, 4096, Vec::new(alloc))?;
    let gate = Meeting::new();
    let (status, _store) = run(&rt, alloc, &words, store, &mut keys, &mut out, &gate);
    assert!(rt; status == Status::Done);
    assert_eq!(rt; out.bytes(), shown.as_bytes());
    assert_eq!(rt; gate.failures.load(Ordering::SeqCst), 0);
    assert_eq!(rt; gate.came.load(Ordering::SeqCst), 8);
    Ok(())
}
