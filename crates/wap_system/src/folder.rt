//! A folder of files as a store of pages.
ghost use Rattle.std.specs.Prelude.{◌≡◌, ◌↔◌, IsTrue, IfOk, is_err};
ghost use Rattle.std.specs.Prelude.{if◌then◌else◌, encode_utf8_all, [], ◌+◌};
ghost use Rattle.std.specs.IoError.{error_kind};
ghost use Rattle.wap_system.specs.Inside.{IsFileName, IsInside, IsFoundInside};
ghost use Rattle.wap_system.specs.Missing.{tells_nothing, fault_of, there};
ghost use Rattle.wap_base.specs.Texts.{AreAscending};
ghost use Rattle.wap_devices.specs.Pages.{IsSmall};
ghost use Rattle.wap_devices.specs.Stores.{Fetches, Lists, Told};

use std::alloc::{AllocError, Global};
use std::io::{ErrorKind, Read};
use std::marker::Model;
use std::path::Path;
use std::rt::Files;
use std::{fs, io};
use wap_base::{Bytes, Text, are_ascending};
use wap_devices::{Count, Fetched, History, Log, PAGE_LIMIT, Store, StoreErr};

/// The deepest level of a folder below the store's own, whose folders have level 1.
const DEEPEST: u32 = 64;

/// The most bytes of a file that are read at once.
const PIECE: usize = 4096;

/// The regular files below a folder, as pages named `host/path`.
///
/// Below the folder a symbolic link to a file counts as that file, and one to a folder as nothing,
/// so that a walk through the folder ends. Where the folder itself isn't there, or isn't one, each
/// call fails but for the pages of names that no file can have. Files may change at any time, so it
/// keeps what it answered, which clauses alone see.
#[derive(Drop)]
pub struct FolderStore<R> {
    rt: R,
    folder: String,
    answers: Log<Text, Fetched>,
    lists: History<Vec<Text>>,
    faults: Count,
    fetches: Count,
    listings: Count,
}

impl<R> Model for FolderStore<R> {
    ghost use Rattle.std.specs.Prelude.{map};
    ghost use Rattle.wap_devices.specs.Stores.{StoreSeen, Told};

    ghost Value = { StoreSeen };

    ghost view = { λ store. record {
      known = Told store.answers.items (map (λ names. names.items) store.lists.items);
      faults = store.faults;
      fetches = store.fetches;
      listings = store.listings;
    } };
}

impl<R> FolderStore<R> {
    /// The store of a folder, which is looked at only when pages are asked for.
    pub fn new(rt: R, folder: String) -> FolderStore<R>
        ensures { result
            ≡ record { known = Told [] []; faults = 0; fetches = 0; listings = 0 } }
    {
        FolderStore {
            rt,
            folder,
            answers: Log::new(),
            lists: History::new(),
            faults: Count::new(),
            fetches: Count::new(),
            listings: Count::new(),
        }
    }
}

impl<R: Files + AllocGlobal + Clone + Drop> Store for FolderStore<R> {
    ghost seen = { λ store. store };

    fn fetch(&mut self, name: &Text) -> Result<Fetched, StoreErr>
        ensures fetches { Fetches name.now self.old self.new result }
        // No step of a name leads out of the folder; a link to a file may.
        ensures inside { IfOk result (IsFoundInside (encode_utf8_all name.now)) }
        ensures outside { ¬ IsInside (encode_utf8_all name.now) → result ≡ Ok Fetched.Missing }
        ensures faults { self.new.faults
            ≡ (if is_err result then self.old.faults + 1 else self.old.faults) }
    {
        self.fetches.add();
        let answer = page(&self.rt, self.folder.as_str(), name.as_str());
        self.faults.add_if(answer.is_err());
        if let Ok(found) = &answer {
            self.answers = self.answers.and(name, found);
        }
        answer
    }

    fn list(&mut self) -> Result<Vec<Text>, StoreErr>
        ensures lists { Lists (λ names. names.items) self.old self.new result }
        ensures faults { self.new.faults
            ≡ (if is_err result then self.old.faults + 1 else self.old.faults) }
    {
        self.listings.add();
        let answer = names(&self.rt, self.folder.as_str());
        self.faults.add_if(answer.is_err());
        if let Ok(names) = &answer {
            self.lists = self.lists.and(names);
        }
        answer
    }
}

/// Whether an error tells that no file of a path can be.
fn tells_nothing(kind: ErrorKind) -> bool
    ensures { result ≡ tells_nothing kind }
{
    matches!(
        kind,
        ErrorKind::NotFound
            | ErrorKind::NotADirectory
            | ErrorKind::FilesystemLoop
            | ErrorKind::InvalidFilename
            | ErrorKind::InvalidInput
    )
}

/// What the system answers of a path, or `None` where no file of that path can be.
fn if_there<T>(answer: io::Result<T>) -> Result<Option<T>, StoreErr>
    ensures { result ≡ there answer }
{
    match answer {
        Ok(found) => Ok(Some(found)),
        Err(error) if tells_nothing(error.kind()) => Ok(None),
        Err(error) => Err(fault(error)),
    }
}

/// The store's fault for the system's.
fn fault(error: io::Error) -> StoreErr
    ensures { result ≡ fault_of (error_kind error) }
{
    match error.kind() {
        ErrorKind::OutOfMemory => StoreErr::NoMemory,
        _ => StoreErr::Failed,
    }
}

/// Whether a segment of a page's name can be the name of a file in its folder.
fn is_file_name(segment: &str) -> bool
    ensures { IsTrue result ↔ IsFileName segment.now }
{
    match segment {
        "" | "." | ".." => false,
        _ => true,
    }
}

/// Whether each segment of a page's name can be the name of a file in its folder.
fn is_inside(name: &str) -> bool
    ensures { IsTrue result ↔ IsInside name.now }
{
    name.split('/').all(|segment| is_file_name(segment))
}

/// The path of a page, or `None` where a segment of its name before the last is no folder's.
fn path_of<R: Files + AllocGlobal>(
    rt: &R,
    folder: &str,
    name: &str,
) -> Result<Option<String>, StoreErr> {
    let mut path = String::from_str(rt.alloc(), folder)?;
    for segment in name.split('/') {
        if path.len() > folder.len() && !is_folder(rt, path.as_str())? {
            return Ok(None);
        }
        path.push('/')?;
        path.push_str(segment)?;
    }
    Ok(Some(path))
}

/// Looks whether the store's own folder is there. It may be a link.
fn look_at_store<R: Files>(rt: &R, folder: &str) -> Result<(), StoreErr> {
    match if_there(fs::metadata(rt, folder))? {
        Some(metadata) if metadata.is_dir() => Ok(()),
        _ => Err(StoreErr::Failed),
    }
}

/// Whether a folder stands at a path, and no link to one.
fn is_folder<R: Files>(rt: &R, path: &str) -> Result<bool, StoreErr> {
    match if_there(fs::symlink_metadata(rt, path))? {
        Some(metadata) => Ok(metadata.is_dir()),
        None => Ok(false),
    }
}

/// The page of a name.
fn page<R: Files + AllocGlobal>(rt: &R, folder: &str, name: &str) -> Result<Fetched, StoreErr>
    ensures small { IfOk result IsSmall }
    ensures inside { IfOk result (IsFoundInside name.now) }
    ensures outside { ¬ IsInside name.now → result ≡ Ok Fetched.Missing }
{
    if !is_inside(name) {
        return Ok(Fetched::Missing);
    }
    look_at_store(rt, folder)?;
    match path_of(rt, folder, name)? {
        Some(path) => page_at(rt, path.as_str()),
        None => Ok(Fetched::Missing),
    }
}

/// The page at a path.
fn page_at<R: Files + AllocGlobal>(rt: &R, path: &str) -> Result<Fetched, StoreErr>
    ensures { IfOk result IsSmall }
{
    let Some(metadata) = if_there(fs::metadata(rt, path))? else {
        return Ok(Fetched::Missing);
    };
    if !metadata.is_file() {
        return Ok(Fetched::Missing);
    }
    // The length is compared before anything is read.
    let length = metadata.len();
    if length >= PAGE_LIMIT as u64 {
        return Err(StoreErr::Failed);
    }
    match if_there(read_prefix(rt, path, length as usize))? {
        Some(bytes) => page_of(bytes),
        None => Ok(Fetched::Missing),
    }
}

/// The first bytes of a file, at most as many as are too many for a page. They are read in pieces
/// into one buffer, and room for so many as the file had is made at once.
fn read_prefix<R: Files + AllocGlobal>(rt: &R, path: &str, length: usize) -> io::Result<Vec<u8>> {
    let mut file = fs::open(rt, path)?.take(PAGE_LIMIT as u64);
    let mut bytes = Vec::with_capacity(rt.alloc(), length)?;
    let mut piece = [0u8; PIECE];
    for _ in 0..u64::MAX {
        match file.read(&mut piece) {
            Ok(0) => break,
            Ok(count) => bytes.extend_from_slice(&piece[..count])?,
            Err(error) if matches!(error.kind(), ErrorKind::Interrupted) => {}
            Err(error) => return Err(error),
        }
    }
    Ok(bytes)
}

/// The page of these bytes. They are too many where the file grew since its length was compared.
fn page_of(bytes: Vec<u8>) -> Result<Fetched, StoreErr>
    ensures { IfOk result IsSmall }
{
    if bytes.len() >= PAGE_LIMIT {
        return Err(StoreErr::Failed);
    }
    Ok(Fetched::Found(Bytes::from_vec(bytes)))
}

/// The names of all pages, in order. A name that the system gives twice, as it may while the folder
/// changes, is a fault.
fn names<R: Files + AllocGlobal + Clone + Drop>(rt: &R, folder: &str) -> Result<Vec<Text>, StoreErr>
    ensures { IfOk result (λ names. AreAscending names.items) }
{
    look_at_store(rt, folder)?;
    let mut names = gather(rt, folder)?;
    names.sort()?;
    if !are_ascending(names.as_slice()) {
        return Err(StoreErr::Failed);
    }
    Ok(names)
}

/// The names of all pages, level by level. A folder below the deepest level is a fault.
fn gather<R: Files + AllocGlobal + Clone + Drop>(
    rt: &R,
    folder: &str,
) -> Result<Vec<Text>, StoreErr> {
    let mut names = Vec::new(rt.alloc());
    let mut level = Vec::new(rt.alloc());
    level.push(String::new(rt.alloc()))?;
    for _ in 0..=DEEPEST {
        let mut below = Vec::new(rt.alloc());
        for prefix in &level {
            read_folder(rt, folder, prefix.as_str(), &mut names, &mut below)?;
        }
        level = below;
    }
    if level.is_empty() {
        Ok(names)
    } else {
        Err(StoreErr::Failed)
    }
}

/// What stands in a folder, as far as the store looks at it.
#[derive(Clone, Copy)]
enum Kind {
    Page,
    Folder,
    Other,
}

/// Adds the names of the pages in one folder, and what the names in its folders begin with.
fn read_folder<R: Files + AllocGlobal + Clone + Drop>(
    rt: &R,
    folder: &str,
    prefix: &str,
    names: &mut Vec<Text>,
    below: &mut Vec<String>,
) -> Result<(), StoreErr> {
    let path = join(rt.alloc(), folder, "/", prefix)?;
    for entry in fs::read_dir(rt, path.as_str()).map_err(fault)? {
        let entry = entry.map_err(fault)?;
        let path = entry.path();
        match kind_of(rt, path)? {
            Kind::Page => {
                let name = join(rt.alloc(), prefix, entry.file_name(), "")?;
                names.push(Text::from_string(name))?;
            }
            Kind::Folder => below.push(join(rt.alloc(), prefix, entry.file_name(), "/")?)?,
            Kind::Other => {}
        }
    }
    Ok(())
}

/// What a path in a folder stands for. A link counts as the file that it leads to, if any.
fn kind_of<R: Files>(rt: &R, path: Path<'_>) -> Result<Kind, StoreErr> {
    let Some(metadata) = if_there(fs::symlink_metadata(rt, path))? else {
        return Ok(Kind::Other);
    };
    if metadata.is_dir() {
        return Ok(Kind::Folder);
    }
    match if_there(fs::metadata(rt, path))? {
        Some(metadata) if metadata.is_file() => Ok(Kind::Page),
        _ => Ok(Kind::Other),
    }
}

/// Three texts in a row.
fn join(alloc: Global, first: &str, second: &str, third: &str) -> Result<String, AllocError> {
    let mut joined = String::from_str(alloc, first)?;
    joined.push_str(second)?;
    joined.push_str(third)?;
    Ok(joined)
}
