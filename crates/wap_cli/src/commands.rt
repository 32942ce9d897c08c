//! Running a command.
ghost use Rattle.wap_keys.specs.words.Commands.{command};
ghost use Rattle.wap_cli.specs.Headline.{Runs};

use crate::Status;
use crate::browsing::browse;
use crate::made::make;
use crate::pages::answer;
use crate::prepare::prepare;
use crate::replaying::replay;
use crate::saved::{image, resume};
use std::alloc::Global;
use std::thread::Threads;
use wap_base::{NoMemory, Text};
use wap_devices::{Gate, Sink, Source, Store};
use wap_keys::words::{Command, read_words};

/// Runs the command that the words are, over the pages of the store and the key lines of the
/// source, and gives the store back. The first word is that of the command, as `browse`: the
/// program and the folder aren't among the words.
///
/// The statuses are those of docs/TRANSCRIPT.md, which says what was written with each. `Usage`
/// comes exactly of words that are no command, unless memory runs out, and then nothing was asked,
/// read or written.
pub fn run<R: Threads + Sync, S: Store, I: Source, O: Sink, G: Gate + Sync>(
    rt: &R,
    alloc: Global,
    words: &[Text],
    mut store: S,
    keys: &mut I,
    out: &mut O,
    gate: &G,
) -> (Status, S)
    ensures { Runs (command words.now)
        (record { store = S.seen store; source = I.seen keys.old; sink = O.seen out.old })
        (record { store = S.seen result.1; source = I.seen keys.new; sink = O.seen out.new })
        result.0 }
{
    match read_words(alloc, words) {
        Ok(Some(Command::Browse(begun))) => browse(alloc, begun, store, keys, out),
        Ok(Some(Command::Image(begun))) => image(alloc, begun, store, keys, out),
        Ok(Some(Command::Resume(one))) => resume(alloc, &one, store, keys, out),
        Ok(Some(Command::Page(command, name))) => {
            (answer(alloc, command, &name, &mut store, out), store)
        }
        Ok(Some(Command::Prepare(workers))) => {
            (prepare(rt, alloc, &mut store, workers, gate, out), store)
        }
        Ok(Some(Command::Make(n))) => (make(alloc, n, out), store),
        Ok(Some(Command::Replay(begun))) => {
            (replay(rt, alloc, begun, &mut store, keys, out, gate), store)
        }
        Ok(None) => (Status::Usage, store),
        Err(NoMemory) => (Status::NoMemory, store),
    }
}
