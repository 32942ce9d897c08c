//! The program `wap_explain`: says of one page of a folder why it is refused, and shows it as text
//! with a mark at the place; or writes it as a page with a good deck.
//!
//! - `decks`: Decks as indented text, the way to an element by its names, and what of a deck isn't
//!   good, in words.
//! - `documents`: Bytes that are no document: why, and as far as they could be read.
//! - `sources`: Sources of scripts: lines with a mark, and what is known at the place.
//! - `units`: Compiled units: their listing with notes, and why one is refused or may not be run.
#![tactic(auto)]

mod changes;
mod decks;
mod documents;
mod ending;
mod explaining;
mod mending;
mod pages;
mod pieces;
mod sources;
mod units;

use crate::ending::Ending;
use crate::explaining::explain;
use crate::mending::{mend, print_refusal};
use std::env;
use std::io::ErrorKind;
use std::process::ExitCode;
use wap_base::{NoMemory, Text};
use wap_system::{FolderStore, StdoutSink};

/// What is to be done with a page.
#[derive(Clone, Copy)]
enum Job {
    Explain,
    Mend,
}

/// The job, the folder and the name of the page, where the words are these and no more.
fn read_arguments(rt: &HostRuntime) -> Result<Option<(Job, String, Text)>, NoMemory> {
    let given = match env::args(rt) {
        Ok(given) => given,
        Err(error) if matches!(error.kind(), ErrorKind::OutOfMemory) => return Err(NoMemory),
        Err(_) => return Ok(None),
    };
    let mut given = given.skip(1);
    let (Some(first), Some(second)) = (given.next(), given.next()) else {
        return Ok(None);
    };
    let third = given.next();
    if first.is_empty() || given.next().is_some() {
        return Ok(None);
    }
    match third {
        None => Ok(Some((Job::Explain, first, Text::from_string(second)))),
        Some(name) if first.as_str() == "mend" && !second.is_empty() => {
            Ok(Some((Job::Mend, second, Text::from_string(name))))
        }
        Some(_) => Ok(None),
    }
}

/// Does what the words say.
fn do_job(rt: &HostRuntime) -> Result<Ending, NoMemory> {
    let Some((job, folder, name)) = read_arguments(rt)? else {
        return Ok(Ending::Usage);
    };
    let mut store = FolderStore::new(rt.clone()?, folder);
    let mut out = StdoutSink::new(rt.stdout());
    Ok(match job {
        Job::Explain => explain(rt.alloc(), &name, &mut store, &mut out),
        Job::Mend => {
            let mut said = StdoutSink::new(rt.stderr());
            let ending = mend(rt.alloc(), &name, &mut store, &mut out, &mut said);
            let _unwritten = print_refusal(&ending, &mut said);
            ending
        }
    })
}

fn main(rt: HostRuntime) -> ExitCode {
    let ending = match do_job(&rt) {
        Ok(ending) => ending,
        Err(NoMemory) => Ending::NoMemory,
    };
    let _unwritten = ending.print(&mut StdoutSink::new(rt.stderr()));
    ExitCode::from(ending.number())
}
