//! Plays cases: pages, words, keys and devices in memory, and what a run of the program over them
//! has to show; and calls of layers that no run shows: of values, libraries, machines, code and
//! fragments, and of the messages of faults. The files that the words name have lines
//! `CALL ARGUMENTS = RESULT` where their names end in `.calls`, and cases where not; without any
//! the cases are read from standard input.
#![tactic(auto)]

mod calls;
mod chains;
mod files;
mod forms;
mod fragments;
mod library;
mod machines;
mod messages;
mod operators;
mod placeable;
mod placing;
mod runs;
mod small_host;
mod threads;
mod units;
mod values;

use files::play_words;
use std::process::ExitCode;

fn main(rt: HostRuntime) -> ExitCode {
    threads::all_cross();
    play_words(&rt)
}
