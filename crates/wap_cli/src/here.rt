//! A run over a folder, a reader and a writer.
ghost use Rattle.wap_keys.specs.words.Commands.{command};
ghost use Rattle.wap_cli.specs.Headline.{Runs};
ghost use Rattle.wap_cli.specs.Here.{untouched, devices_of};

use crate::{Status, run};
use std::io::{Read, Write};
use std::rt::Files;
use std::thread::Threads;
use wap_base::Text;
use wap_devices::NoGate;
use wap_system::{FolderStore, StdinSource, StdoutSink};

/// The folder, the reader and the writer after a run, with what they answered, gave and took in it,
/// and how it ended.
#[derive(Drop)]
pub struct Ended<R, I, O> {
    pub store: FolderStore<R>,
    pub source: StdinSource<I>,
    pub sink: StdoutSink<O>,
    pub status: Status,
}

/// Runs the command that the words are ([`run`]) over the pages of a folder, with key lines from a
/// reader, as standard input, and lines to a writer, as standard output. What the folder answered,
/// the reader gave and the writer took from the first on is in the devices that come back.
pub fn run_here<R: Threads + Sync + Files + AllocGlobal + Clone + Drop, I: Read, O: Write>(
    rt: &R,
    files: R,
    folder: String,
    words: &[Text],
    reader: I,
    writer: O,
) -> Ended<R, I, O>
    ensures { Runs (command words.now) untouched
        (devices_of result.store result.source result.sink) result.status }
{
    let mut source = StdinSource::new(reader);
    let mut sink = StdoutSink::new(writer);
    let (status, store) = run(
        rt,
        rt.alloc(),
        words,
        FolderStore::new(files, folder),
        &mut source,
        &mut sink,
        &NoGate,
    );
    Ended {
        store,
        source,
        sink,
        status,
    }
}
