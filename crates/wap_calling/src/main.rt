//! A program that calls the browser: it has pages of its own in memory, plays the keys of a user in
//! a session over them, answers the dialog of a script, and shows the lines; it follows an
//! indication that is pushed; and then it plays the lines that a user types, over a folder with a
//! page of its own before it. docs/CALLING.md goes through it.
#![tactic(auto)]

ghost use Rattle.std.specs.Prelude.{◌≡◌};
ghost use Rattle.wap_session.specs.Feeding.{beginning};
ghost use Rattle.wap_calling.specs.Calling.{begun};

mod front;
mod own;
mod shelf;
mod site;
mod stopped;
mod terminal;
mod typing;

use front::Front;
use own::{HELLO, PUSHED, own_pages};
use shelf::Shelf;
use site::are_site_pages;
use std::alloc::Global;
use std::process::ExitCode;
use std::{env, io};
use stopped::Stopped;
use terminal::{accept_dialog, new_session, visit};
use typing::{Typed, type_line};
use wap_base::{Bytes, NoMemory, Text};
use wap_devices::PAGE_LIMIT;
use wap_layout::buffer::Lines;
use wap_pages::Cached;
use wap_session::{Key, Session};
use wap_system::FolderStore;

/// What a user does: opens the first page, and takes its do.
fn first_keys(alloc: Global) -> Result<Vec<Key>, NoMemory> {
    let mut keys = Vec::new(alloc);
    keys.push(Key::Open(Text::of(alloc, "http://h/hello.wmlc")?))?;
    keys.push(Key::Do(Text::of(alloc, "ask")?))?;
    Ok(keys)
}

/// An indication is pushed, and the user looks into the inbox and follows it.
fn inbox_keys(alloc: Global) -> Result<Vec<Key>, NoMemory> {
    let mut keys = Vec::new(alloc);
    keys.push(Key::Push(Bytes::of(alloc, PUSHED)?))?;
    keys.push(Key::Inbox)?;
    keys.push(Key::Follow(1))?;
    Ok(keys)
}

fn show<R: Print>(rt: &R, lines: &Lines) -> io::Result<()> {
    for line in lines.each() {
        println!(rt; "{}", line)?;
    }
    Ok(())
}

/// The pages, where no name stands twice and none is missing.
fn own_shelf(alloc: Global) -> Result<Shelf, Stopped> {
    let pages = own_pages(alloc)?;
    if are_site_pages(alloc, pages.as_slice())? {
        return Ok(Shelf::new(pages));
    }
    Err(Stopped::NoSite)
}

/// The lines of the first keys, which end in a dialog.
fn first_lines(alloc: Global, session: &mut Session, shelf: &mut Shelf) -> Result<Lines, Stopped>
    requires { session.now ≡ beginning begun }
{
    let keys = first_keys(alloc)?;
    Ok(visit(alloc, session, keys.as_slice(), shelf)?)
}

/// The lines that follow the answer to the dialog.
fn last_lines(alloc: Global, session: &mut Session, shelf: &mut Shelf) -> Result<Lines, Stopped> {
    let answer = Text::of(alloc, "Bob")?;
    Ok(accept_dialog(alloc, session, answer, shelf)?)
}

/// The lines of a new session: those of the first keys, and those that follow the answer.
fn both_lines(
    alloc: Global,
    session: &mut Session,
    shelf: &mut Shelf,
) -> Result<(Lines, Lines), Stopped>
    requires { session.now ≡ beginning begun }
{
    let first = first_lines(alloc, session, shelf)?;
    let last = last_lines(alloc, session, shelf)?;
    Ok((first, last))
}

/// The lines of a session over these pages.
fn lines_over(alloc: Global, shelf: &mut Shelf) -> Result<(Lines, Lines), Stopped> {
    let mut session = new_session(alloc);
    both_lines(alloc, &mut session, shelf)
}

/// The lines of a session over the program's own pages.
fn own_lines(alloc: Global) -> Result<(Lines, Lines), Stopped> {
    let mut shelf = own_shelf(alloc)?;
    lines_over(alloc, &mut shelf)
}

/// The lines of the keys of an inbox over the program's own pages.
fn inbox_lines(alloc: Global) -> Result<Lines, Stopped> {
    let mut shelf = own_shelf(alloc)?;
    let mut session = new_session(alloc);
    let keys = inbox_keys(alloc)?;
    Ok(visit(alloc, &mut session, keys.as_slice(), &mut shelf)?)
}

/// Plays a session, and shows its lines.
fn play<R: Print + AllocGlobal>(rt: &R) -> Result<(), Stopped> {
    let (first, last) = own_lines(rt.alloc())?;
    show(rt, &first)?;
    show(rt, &last)?;
    Ok(())
}

/// Plays the keys of an inbox, and shows their lines.
fn play_inbox<R: Print + AllocGlobal>(rt: &R) -> Result<(), Stopped> {
    let lines = inbox_lines(rt.alloc())?;
    show(rt, &lines)?;
    Ok(())
}

/// The pages of a folder, with the card that greets before them.
fn folder_pages(
    rt: &HostRuntime,
    folder: String,
) -> Result<Cached<Front<FolderStore<HostRuntime>>>, Stopped> {
    let alloc = rt.alloc();
    let folder = FolderStore::new(rt.clone()?, folder);
    let page = Bytes::of(alloc, HELLO)?;
    if page.len() >= PAGE_LIMIT {
        return Err(Stopped::NoSite);
    }
    let front = Front::new(alloc, Text::of(alloc, "h/hello.wmlc")?, page, folder);
    match Cached::new(alloc, front, 16) {
        Ok(pages) => Ok(pages),
        Err((_, NoMemory)) => Err(Stopped::Session),
    }
}

/// Plays each line of standard input as it is typed, over a folder, and shows what it came to.
fn play_typed(rt: &HostRuntime, folder: String) -> Result<(), Stopped> {
    let mut pages = folder_pages(rt, folder)?;
    let mut session = new_session(rt.alloc());
    for line in rt.lines(rt.alloc()) {
        let line = line?;
        match type_line(rt.alloc(), &mut session, line.as_bytes(), &mut pages)? {
            Typed::Shown(lines) => show(rt, &lines)?,
            Typed::Wrong(fault) => println!(rt; "{line}: {fault}")?,
        }
    }
    Ok(())
}

/// The folder that an argument names, if one does.
fn named_folder(rt: &HostRuntime) -> Option<String> {
    env::args(rt).ok()?.nth(1)
}

/// Plays the session, the keys of the inbox and, where a folder is named, the lines that are typed,
/// and shows their lines.
fn play_all(rt: &HostRuntime) -> Result<(), Stopped> {
    play(rt)?;
    play_inbox(rt)?;
    match named_folder(rt) {
        Some(folder) => play_typed(rt, folder),
        None => Ok(()),
    }
}

fn main(rt: HostRuntime) -> ExitCode {
    match play_all(&rt) {
        Ok(()) => ExitCode::from(0),
        Err(Stopped::NoSite | Stopped::Session | Stopped::Output) => ExitCode::from(1),
    }
}
