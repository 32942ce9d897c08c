//! Commands, and the words that say them.
ghost use Rattle.std.specs.Prelude.{◌≡◌, IfOk, IfSome};
ghost use Rattle.wap_keys.specs.words.Commands.{command};
ghost use Rattle.wap_keys.specs.words.Ranges.{HasRanges};

use crate::words::arguments::uses_of;
use crate::words::browsing::{browse_of, replay_of};
use crate::words::pages::{make_of, page_of, prepare_of, resume_of};
use crate::words::word::{Word, form_of, word_named};
use std::alloc::Global;
use wap_base::{Limits, NoMemory, Text};

/// What is browsed, and how.
#[derive(Debug, Drop, PartialEq, Eq)]
pub struct Browse {
    /// The page with which it begins.
    pub url: Text,
    /// What the first random number hangs on.
    pub seed: u32,
    /// How many turns each key has.
    pub budget: u32,
    /// How many pages are kept.
    pub cache: u32,
    /// What a run may keep and how deep it may call.
    pub limits: Limits,
}

/// Which saved context is gone on with, and how.
#[derive(Debug, Drop, PartialEq, Eq)]
pub struct Resume {
    /// The name of its image among the pages.
    pub name: Text,
    /// How many pages are kept.
    pub cache: u32,
}

/// What is done with one page.
#[derive(Clone, Copy, Debug, PartialEq, Eq)]
pub enum PageCommand {
    /// It is read as a compiled unit, and verified.
    Verify,
    /// It is read as a compiled unit, and listed.
    List,
    /// It is read as a document, and its deck is checked.
    Check,
    /// It is read as a document, and written again.
    Canon,
    /// It is read as a source, and the unit that it is compiled to is written.
    Compile,
}

/// What several lists of keys are played over, and how.
#[derive(Debug, Drop, PartialEq, Eq)]
pub struct Replay {
    /// The page with which each session begins.
    pub url: Text,
    /// What the first random number of each hangs on.
    pub seed: u32,
    /// How many turns each key has.
    pub budget: u32,
    /// How many workers share the pages and the lists.
    pub workers: u8,
    /// What a run may keep and how deep it may call.
    pub limits: Limits,
}

/// A command, with its values.
#[derive(Debug, Drop, PartialEq, Eq)]
pub enum Command {
    Browse(Browse),
    /// What is browsed so is saved where it ends.
    Image(Browse),
    Resume(Resume),
    /// What is done with the page of a name.
    Page(PageCommand, Text),
    /// All pages are judged, by so many workers.
    Prepare(u8),
    /// The made folder of a number is browsed.
    Make(u32),
    /// Several lists of keys are played over all pages.
    Replay(Replay),
}

/// The command that words are, or none.
pub fn read_words(alloc: Global, words: &[Text]) -> Result<Option<Command>, NoMemory>
    ensures said { IfOk result (λ said. said ≡ command words.now) }
    ensures ranges { IfOk result (λ said. IfSome said HasRanges) }
{
    let [first, words @ ..] = words else {
        return Ok(None);
    };
    let Some(word) = word_named(first.as_str()) else {
        return Ok(None);
    };
    let Some(uses) = uses_of(alloc, form_of(word), words)? else {
        return Ok(None);
    };
    let command = match word {
        Word::Browse => browse_of(alloc, &uses)?.map(Command::Browse),
        Word::Image => browse_of(alloc, &uses)?.map(Command::Image),
        Word::Resume => resume_of(alloc, &uses)?.map(Command::Resume),
        Word::Page(page) => page_of(alloc, &uses)?.map(|name| Command::Page(page, name)),
        Word::Prepare => prepare_of(&uses).map(Command::Prepare),
        Word::Make => make_of(&uses).map(Command::Make),
        Word::Replay => replay_of(alloc, &uses)?.map(Command::Replay),
    };
    Ok(command)
}
