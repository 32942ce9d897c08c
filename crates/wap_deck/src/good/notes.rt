//! Notes of where nodes end and what they begin with, by which nodes are seen and skipped at once.
ghost use Rattle.std.specs.Prelude.{◌≡◌, ℕ, ◌<◌, ◌≤◌, List, length, drop, IfOk, OnOk, IfSome};
ghost use Rattle.wap_deck.specs.good.Readers.{IsBehind};
ghost use Rattle.wap_deck.specs.good.inside.Nodes.{FollowsNode, FollowsContent};
ghost use Rattle.wap_deck.specs.good.inside.Nodes.{FollowsItems, FollowsItem};
ghost use Rattle.wap_deck.specs.good.inside.Notes.{IsHead, IsNote, IsOwn, AreNotes, AreMore};
ghost use Rattle.wap_deck.specs.good.inside.Notes.{last_bytes};

use crate::good::bits::{after_bit, after_bits};
use crate::good::front::{after_first, first, is_end};
use crate::good::heads::known_of;
use crate::good::skip::after_kids;
use std::alloc::Global;
use wap_base::{NoMemory, Rows};
use wap_tokens::markup::LEVEL_LIMIT;
use wap_tokens::tag_of;
use wap_wbxml::{has_attributes, has_content};

/// Where a node begins and where it ends, by how many bytes are left there.
#[derive(Clone, Copy)]
pub struct Note {
    pub begin: u32,
    pub end: u32,
    pub known: Known,
}

/// What is known of a node. Four bytes, so that they are handed on at once.
#[derive(Clone, Copy)]
pub struct Known {
    /// The marks of its attributes' names.
    pub names: u16,
    /// So many of its bytes stand before its content; 0 where that isn't known.
    pub head: u8,
    /// In a note: how many notes of nodes in it follow, 255 where there are as many or more. Else
    /// it isn't counted.
    pub inside: u8,
}

/// A node of fewer bytes and without attributes is read byte by byte.
const NOTED: usize = 16;

/// The note of the node that bytes begin with, by what follows it and what is known of it; none
/// where the node is short and has no attributes, no tag begins it, or 32 bits can't count the
/// bytes.
fn note_of(bytes: &[u8], rest: &[u8], known: Known) -> Option<Note>
    requires follows { FollowsNode LEVEL_LIMIT bytes.now rest.now }
    requires behind { IsBehind rest.now (drop 1 bytes.now) }
    requires head { IsHead bytes.now known.names known.head }
    ensures noted { IfSome result (IsNote bytes.now) }
    ensures begin { IfSome result (λ note. note.begin ≤ length bytes.now) }
{
    let (mark, _) = first(bytes)?;
    if !has_attributes(mark) && bytes.len() - rest.len() < NOTED {
        return None;
    }
    tag_of(0, mark % 64)?;
    if bytes.len() > u32::MAX as usize {
        return None;
    }
    Some(Note {
        begin: bytes.len() as u32,
        end: rest.len() as u32,
        known,
    })
}

/// Adds the note of the node that bytes begin with, by what follows it and what is known of it,
/// before the notes of the nodes in it, which stand from a place on.
fn add_note(
    bytes: &[u8],
    rest: &[u8],
    known: Known,
    place: usize,
    notes: &mut Vec<Note>,
) -> Result<(), NoMemory>
    requires follows { FollowsNode LEVEL_LIMIT bytes.now rest.now }
    requires behind { IsBehind rest.now (drop 1 bytes.now) }
    requires head { IsHead bytes.now known.names known.head }
    requires place { place ≤ length notes.old.items }
    ensures { OnOk result (AreMore bytes.now notes.old.items notes.new.items) }
{
    let inside = (notes.len() - place).min(u8::MAX as usize) as u8;
    if let Some(note) = note_of(bytes, rest, Known { inside, ..known }) {
        notes.insert(place, note)?;
    }
    Ok(())
}

/// Adds the notes of the node that bytes begin with and of the nodes in it, and gives what follows
/// it. What is deeper than so many levels isn't noted.
#[cycle(notes)]
fn note_node<'a>(levels: u32, bytes: &'a [u8], notes: &mut Vec<Note>) -> Result<&'a [u8], NoMemory>
    ensures exact { IfOk result (λ rest. FollowsNode LEVEL_LIMIT bytes.now rest.now) }
    ensures behind { IfOk result (λ rest. IsBehind rest.now (drop 1 bytes.now)) }
    ensures noted { OnOk result (AreMore bytes.now notes.old.items notes.new.items) }
{
    let Some((mark, rest)) = first(bytes) else {
        return Ok(&[]);
    };
    let place = notes.len();
    let (known, content) = known_of(bytes, mark, rest);
    let behind = note_content(levels, mark, content, notes)?;
    add_note(bytes, behind, known, place, notes)?;
    Ok(behind)
}

/// Adds the notes of the nodes in the content after a mark, if it says that there is any, and gives
/// what follows it.
#[cycle(notes)]
fn note_content<'a>(
    levels: u32,
    mark: u8,
    bytes: &'a [u8],
    notes: &mut Vec<Note>,
) -> Result<&'a [u8], NoMemory>
    ensures exact { IfOk result (λ rest. FollowsContent LEVEL_LIMIT mark bytes.now rest.now) }
    ensures behind { IfOk result (λ rest. IsBehind rest.now bytes.now) }
    ensures noted { OnOk result (AreMore bytes.now notes.old.items notes.new.items) }
{
    if !has_content(mark) {
        return Ok(bytes);
    }
    if levels == 0 {
        return Ok(after_kids(LEVEL_LIMIT, bytes));
    }
    note_kids(levels - 1, bytes, notes)
}

/// Adds the notes of the nodes among items, and gives what follows the items and their end.
#[cycle(notes)]
fn note_kids<'a>(levels: u32, bytes: &'a [u8], notes: &mut Vec<Note>) -> Result<&'a [u8], NoMemory>
    ensures exact { IfOk result (λ rest. FollowsItems LEVEL_LIMIT bytes.now rest.now) }
    ensures behind { IfOk result (λ rest. IsBehind rest.now bytes.now) }
    ensures noted { OnOk result (AreMore bytes.now notes.old.items notes.new.items) }
{
    let mut rest = bytes;
    while !is_end(rest) {
        rest = note_item(levels, rest, notes)?;
    }
    Ok(after_first(rest))
}

/// Adds the notes of a node and of the nodes in it, none for a text, and gives what follows it.
#[cycle(notes)]
fn note_item<'a>(levels: u32, bytes: &'a [u8], notes: &mut Vec<Note>) -> Result<&'a [u8], NoMemory>
    ensures exact { IfOk result (λ rest. FollowsItem LEVEL_LIMIT bytes.now rest.now) }
    ensures behind { IfOk result (λ rest. IsBehind rest.now (drop 1 bytes.now)) }
    ensures noted { OnOk result (AreMore bytes.now notes.old.items notes.new.items) }
{
    match after_bit(bytes) {
        Some(rest) => Ok(after_bits(rest)),
        None => note_node(levels, bytes, notes),
    }
}

/// The notes of the nodes in a document, in their order, by its bytes and where its root begins.
pub(crate) fn notes_of(alloc: Global, bytes: &[u8], root: usize) -> Result<Rows<Note>, NoMemory>
    requires { root ≤ length bytes.now }
    ensures { IfOk result (AreNotes bytes.now) }
{
    let mut notes = Vec::new(alloc);
    note_node(LEVEL_LIMIT, &bytes[root..], &mut notes)?;
    notes.shrink_to_fit();
    Ok(Rows::from_vec(notes))
}

/// The notes from a place on.
pub(crate) fn notes_from(notes: &[Note], place: usize) -> &[Note]
    ensures { (whole : List ℕ) → AreNotes whole notes.now → AreNotes whole result.now }
{
    if place > notes.len() {
        return &[];
    }
    &notes[place..]
}

/// The notes of what begins in the last bytes.
// A call, since few nodes have as many notes inside that walks need it.
#[inline(never)]
pub(crate) fn notes_left<'a>(notes: &'a [Note], bytes: &[u8]) -> &'a [Note]
    ensures { (whole : List ℕ) → AreNotes whole notes.now → AreNotes whole result.now }
{
    let mut passed = 0;
    while passed < notes.len() && notes[passed].begin as usize > bytes.len() {
        passed += 1;
    }
    &notes[passed..]
}

/// The notes of what follows a node, by those behind its own, of which so many are inside.
fn notes_past<'a>(inside: u8, notes: &'a [Note], rest: &[u8]) -> &'a [Note]
    ensures { (whole : List ℕ) → AreNotes whole notes.now → AreNotes whole result.now }
{
    if inside < u8::MAX {
        notes_from(notes, inside as usize)
    } else {
        notes_left(notes, rest)
    }
}

/// The note of the node that bytes begin with, if it has one, and those behind it.
#[inline(always)]
pub(crate) fn own_note<'a>(notes: &'a [Note], bytes: &[u8]) -> Option<(&'a Note, &'a [Note])>
    requires { AreNotes bytes.now notes.now }
    ensures own { IfSome result (λ read. IsOwn bytes.now read.0.now) }
    ensures shorter { IfSome result (λ read. read.0.now.end < length bytes.now) }
    ensures inside { IfSome result (λ read. AreNotes bytes.now read.1.now) }
{
    match notes {
        [note, inside @ ..] => {
            if note.begin as usize == bytes.len() {
                Some((note, inside))
            } else {
                None
            }
        }
        [] => None,
    }
}

/// What follows the node that bytes begin with, by its note and those behind it, and the notes of
/// what follows.
#[inline(always)]
pub(crate) fn after_noted<'a>(
    note: &Note,
    inside: &'a [Note],
    bytes: &'a [u8],
) -> (&'a [u8], &'a [Note])
    requires { note.now.end < length bytes.now }
    ensures rest { result.0.now ≡ last_bytes note.now.end bytes.now }
    ensures notes { (whole : List ℕ) → AreNotes whole inside.now → AreNotes whole result.1.now }
{
    let rest = &bytes[bytes.len() - note.end as usize..];
    (rest, notes_past(note.known.inside, inside, rest))
}
