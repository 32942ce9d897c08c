//! Playing lists of keys.
ghost use Rattle.std.specs.Prelude.{◌≡◌, ◌<◌, ◌++◌, IfOk, OnOk};
ghost use Rattle.std.specs.List.{enumerate_from, flat_map};
ghost use Rattle.wap_base.specs.Limits.{AreInRange};
ghost use Rattle.wap_base.specs.declared.key.Key.TheVariants.{Open};
ghost use Rattle.wap_layout.specs.buffer.Written.{lines_bytes};
ghost use Rattle.wap_world.specs.Sessions.{shown_by};
ghost use Rattle.wap_world.specs.scripting.UnitSites.{unit_pages};
ghost use Rattle.wap_cli.specs.browse.Beginning.{begun_with};
ghost use Rattle.wap_cli.specs.Networks.{network_of};
ghost use Rattle.wap_cli.specs.resume.Saving.{opened_at};
ghost use Rattle.wap_cli.specs.replay.Texts.{header, replayed};
ghost use Rattle.wap_cli.specs.replay.inside.Jobs.{text_on};

use crate::browse::{Beginning, add_lines, at_end};
use crate::prepare::all_answers;
use crate::prepared::Prepared;
use itoa::Buffer;
use std::alloc::Global;
use std::marker::{Model, Sync};
use std::thread::Threads;
use wap_base::{NoMemory, Rows, Text};
use wap_devices::Gate;
use wap_folder::{Work, run_jobs};
use wap_layout::buffer::Lines;
use wap_session::{Key, Session, SessionFault};

/// Appends the line before a list's transcript: the number of the list, and how its session ended.
fn add_header(text: &mut Vec<u8>, number: usize, is_open: bool) -> Result<(), NoMemory>
    ensures { OnOk result (text.new.items ≡ text.old.items ++ header number is_open) }
{
    let mut buffer = Buffer::new();
    text.extend_from_slice(b"% ")?;
    text.extend_from_slice(buffer.format(number).as_bytes())?;
    text.extend_from_slice(b" ")?;
    text.extend_from_slice(buffer.format(at_end(is_open).number()).as_bytes())?;
    Ok(text.extend_from_slice(b"\n")?)
}

/// The key that opens a URL.
fn opening(alloc: Global, url: &Text) -> Result<Key, NoMemory>
    ensures { IfOk result (λ key. key ≡ Open url.now) }
{
    Ok(Key::Open(url.copy(alloc)?))
}

/// What a list comes to that was played.
#[derive(Drop)]
struct Played {
    /// The lines of the URL that is opened.
    opened: Lines,
    /// The lines of its keys.
    played: Lines,
    /// Whether it ends in a dialog.
    is_open: bool,
}

/// Plays a list by a session of its own. No store stands below the pages that could fail, and the
/// session isn't over, so that memory is all that may be missing.
fn play(
    alloc: Global,
    pages: &Prepared,
    begun: &Beginning,
    keys: &[Key],
) -> Result<Played, NoMemory>
    requires { AreInRange begun.now.limits }
    ensures lines { IfOk result (λ list. list.opened ++ list.played
        ≡ shown_by
        (opened_at (begun_with begun.now) (network_of (unit_pages pages.now)) keys.now)) }
    ensures ends { IfOk result (λ list. list.is_open
        ≡ (opened_at (begun_with begun.now) (network_of (unit_pages pages.now)) keys.now).is_open) }
{
    let first = opening(alloc, &begun.url)?;
    let mut shared = pages.pages();
    let mut session = Session::new(alloc, begun.seed, begun.budget, begun.limits);
    let opened = match session.feed(alloc, &first, &mut shared) {
        Ok(lines) => lines,
        Err(SessionFault::NoMemory) => return Err(NoMemory),
        Err(SessionFault::Store) => unreachable!(),
        Err(SessionFault::Ended) => unreachable!(),
    };
    let played = match session.play(alloc, keys, &mut shared) {
        Ok(lines) => lines,
        Err(SessionFault::NoMemory) => return Err(NoMemory),
        Err(SessionFault::Store) => unreachable!(),
        Err(SessionFault::Ended) => unreachable!(),
    };
    Ok(Played {
        opened,
        played,
        is_open: session.in_dialog(),
    })
}

/// The text of a list that was played: its header, and its transcript after it.
fn text_of(alloc: Global, number: usize, list: &Played) -> Result<Vec<u8>, NoMemory>
    ensures { IfOk result (λ text. text.items
        ≡ header number list.now.is_open ++ lines_bytes (list.now.opened ++ list.now.played)) }
{
    let mut text = Vec::new(alloc);
    add_header(&mut text, number, list.is_open)?;
    add_lines(&mut text, &list.opened)?;
    add_lines(&mut text, &list.played)?;
    Ok(text)
}

/// The text of a list, which is played by a session of its own.
fn play_list(
    alloc: Global,
    pages: &Prepared,
    begun: &Beginning,
    number: usize,
    keys: &[Key],
) -> Result<Vec<u8>, NoMemory>
    requires { AreInRange begun.now.limits }
    ensures { IfOk result (λ text. text.items ≡ text_on
        (record { pages = pages.now; begun = begun_with begun.now }) (number, keys.now)) }
{
    let list = play(alloc, pages, begun, keys)?;
    text_of(alloc, number, &list)
}

/// Lists of keys are played, each by a session of its own. A contract sees the pages and what each
/// session is begun with.
#[derive(Drop)]
pub(crate) struct Playing<'a> {
    /// Where memory is taken.
    alloc: Global,
    pages: &'a Prepared,
    begun: Beginning,
}

impl<'a> Model for Playing<'a> {
    ghost use Rattle.std.specs.Coded.{codes};
    ghost use Rattle.wap_tokens.specs.contracts.markup.deck.Item as item;
    ghost use Rattle.wap_base.specs.Limits.{AreInRange};
    ghost use Rattle.wap_cli.specs.browse.Beginning.{begun_with};
    ghost use Rattle.wap_cli.specs.replay.inside.Jobs.{Stage};

    ghost Value = { Stage };

    ghost coded = { Prim.hlevel (codes, item.the_row.coded) };

    ghost view = { λ work. record { pages = work.pages.now; begun = begun_with work.begun } };

    ghost invariant = { λ work. AreInRange work.begun.limits };
}

impl<'a> Work for Playing<'a> {
    type Job = (usize, Rows<Key>);

    type Answer = Result<Vec<u8>, NoMemory>;

    ghost use Rattle.std.specs.Prelude.{◌≡◌, IfOk};
    ghost use Rattle.wap_cli.specs.replay.inside.Jobs.{text_on};

    ghost right = { λ work job answer. IfOk answer (λ text. text.items ≡ text_on work job) };

    fn work(&self, job: &(usize, Rows<Key>)) -> Result<Vec<u8>, NoMemory> {
        play_list(self.alloc, self.pages, &self.begun, job.0, job.1.as_slice())
    }
}

/// Lists with their numbers, from 1.
#[tactic(auto, using(crate::proofs::ReplayLemmas::Transcripts::numbered_next))]
fn numbered(alloc: Global, lists: Vec<Rows<Key>>) -> Result<Vec<(usize, Rows<Key>)>, NoMemory>
    ensures { IfOk result (λ jobs. jobs.items ≡ enumerate_from 1 lists.items) }
{
    let mut jobs = Vec::new(alloc);
    for list in lists {
        let Some(number) = jobs.len().checked_add(1) else {
            return Err(NoMemory);
        };
        jobs.push((number, list))?;
    }
    Ok(jobs)
}

/// The text of each list, played over the pages by so many workers.
pub(crate) fn play_lists<R: Threads + Sync, G: Gate + Sync>(
    rt: &R,
    alloc: Global,
    pages: &Prepared,
    begun: Beginning,
    lists: Vec<Rows<Key>>,
    workers: u8,
    gate: &G,
) -> Result<Vec<Vec<u8>>, NoMemory>
    requires some { 0 < workers }
    requires limits { AreInRange begun.limits }
    ensures { IfOk result (λ texts. flat_map (λ text. text.items) texts.items
        ≡ replayed (network_of (unit_pages pages.now)) (begun_with begun) lists.items) }
{
    let jobs = numbered(alloc, lists)?;
    let work = Playing {
        alloc,
        pages,
        begun,
    };
    let answers = run_jobs(rt, alloc, &work, &jobs, workers, gate)?;
    all_answers(alloc, answers)
}
