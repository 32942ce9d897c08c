//! The store over folders of the system.
use crate::FolderStore;
use crate::tests::expected::{expect, row_of, word_of};
use std::fs::File;
use std::os::unix::fs::symlink;
use std::test::Fail;
use std::{env, fs, io, process};
use wap_base::Text;
use wap_devices::Store;

/// A folder of the test's own, which isn't there yet.
fn scratch(rt: &HostRuntime, name: &str) -> io::Result<String> {
    let folder = env::temp_dir(rt)?;
    let id = process::id(rt.process());
    Ok(format!(in rt.alloc(); "{}/wap-{name}-{id}", folder.display())?)
}

/// A path below a folder.
fn below(rt: &HostRuntime, folder: &str, path: &str) -> io::Result<String> {
    Ok(format!(in rt.alloc(); "{folder}/{path}")?)
}

/// The store of a folder.
fn store_of(rt: &HostRuntime, folder: &str) -> io::Result<FolderStore<HostRuntime>> {
    let folder = String::from_str(rt.alloc(), folder)?;
    Ok(FolderStore::new(rt.clone()?, folder))
}

/// Expects what a folder's store answers for a name.
fn expect_answer(rt: &HostRuntime, folder: &str, name: &str, wanted: &str) -> Result<(), Fail> {
    let mut store = store_of(rt, folder)?;
    expect(word_of(&store.fetch(&Text::of(rt.alloc(), name)?)), wanted)
}

/// Expects what a folder's store lists.
fn expect_list(rt: &HostRuntime, folder: &str, wanted: &str) -> Result<(), Fail> {
    let mut store = store_of(rt, folder)?;
    expect(row_of(rt.alloc(), store.list())?.as_str(), wanted)
}

/// Writes a page.
fn make_page(rt: &HostRuntime, folder: &str, path: &str) -> io::Result<()> {
    fs::write(rt, below(rt, folder, path)?, "page")
}

/// Makes a link.
fn make_link(rt: &HostRuntime, folder: &str, to: &str, path: &str) -> io::Result<()> {
    symlink(rt, to, below(rt, folder, path)?)
}

/// Pages, links to a page, to nothing and to a folder, and a file that is too long.
fn make_pages(rt: &HostRuntime, folder: &str) -> io::Result<()> {
    fs::create_dir_all(rt, below(rt, folder, "h/d")?)?;
    make_page(rt, folder, "h/a.wmlc")?;
    make_page(rt, folder, "h/Z")?;
    make_page(rt, folder, "top")?;
    make_link(rt, folder, "a.wmlc", "h/link")?;
    make_link(rt, folder, "nothing", "h/loose")?;
    make_link(rt, folder, "h", "linked")?;
    File::create(rt, below(rt, folder, "h/large")?)?.set_len(1 << 31)
}

/// What the store of these pages answers.
static ANSWERS: [(&str, &str); 18] = [
    ("h/a.wmlc", "page"),
    ("h/link", "page"),
    ("top", "page"),
    ("h/none", "missing"),
    ("none/a.wmlc", "missing"),
    ("h/a.wmlc/b", "missing"),
    ("h/../top", "missing"),
    ("h/./a.wmlc", "missing"),
    ("h//a.wmlc", "missing"),
    ("/h/a.wmlc", "missing"),
    ("h/a.wmlc/", "missing"),
    ("..", "missing"),
    ("", "missing"),
    ("h/d", "missing"),
    ("h/loose", "missing"),
    ("linked/a.wmlc", "missing"),
    ("h/\0", "missing"),
    ("h/large", "failed"),
];

/// What the store answers where the folder isn't there.
static ANSWERS_OF_NONE: [(&str, &str); 3] = [
    ("h/a.wmlc", "failed"),
    ("a//b", "missing"),
    ("..", "missing"),
];

/// Expects answers of a folder's store.
fn expect_answers(rt: &HostRuntime, folder: &str, answers: &[(&str, &str)]) -> Result<(), Fail> {
    for (name, wanted) in answers {
        expect_answer(rt, folder, name, wanted)?;
    }
    Ok(())
}

#[test]
fn a_folder_has_its_regular_files(rt: HostRuntime) -> Result<(), Fail> {
    let folder = scratch(&rt, "pages")?;
    make_pages(&rt, folder.as_str())?;
    expect_answers(&rt, folder.as_str(), &ANSWERS)?;
    expect_list(&rt, folder.as_str(), "h/Z h/a.wmlc h/large h/link top ")?;
    fs::remove_dir_all(&rt, folder.as_str())?;
    Ok(())
}

/// The path of 64 levels below a folder, without the first slash.
static LEVELS: &str = "d/d/d/d/d/d/d/d/d/d/d/d/d/d/d/d/d/d/d/d/d/d/d/d/d/d/d/d/d/d/d/d\
    /d/d/d/d/d/d/d/d/d/d/d/d/d/d/d/d/d/d/d/d/d/d/d/d/d/d/d/d/d/d/d/d";

/// Expects what is listed of a folder with a page in its deepest level, and with one level more.
fn expect_levels(rt: &HostRuntime, folder: &str, deepest: &str) -> Result<(), Fail> {
    fs::create_dir_all(rt, deepest)?;
    make_page(rt, deepest, "page")?;
    let name = format!(in rt.alloc(); "{LEVELS}/page ")?;
    expect_list(rt, folder, name.as_str())?;
    fs::create_dir(rt, below(rt, deepest, "d")?)?;
    expect_list(rt, folder, "failed")
}

#[test]
fn a_folder_has_64_levels(rt: HostRuntime) -> Result<(), Fail> {
    let folder = scratch(&rt, "levels")?;
    let deepest = below(&rt, folder.as_str(), LEVELS)?;
    expect_levels(&rt, folder.as_str(), deepest.as_str())?;
    fs::remove_dir_all(&rt, folder.as_str())?;
    expect_list(&rt, folder.as_str(), "failed")
}

/// A folder that isn't there, or isn't one, is no folder without pages.
#[test]
fn a_store_is_a_folder(rt: HostRuntime) -> Result<(), Fail> {
    let folder = scratch(&rt, "none")?;
    expect_answers(&rt, folder.as_str(), &ANSWERS_OF_NONE)?;
    fs::write(&rt, folder.as_str(), "page")?;
    expect_answer(&rt, folder.as_str(), "h/a.wmlc", "failed")?;
    expect_list(&rt, folder.as_str(), "failed")?;
    fs::remove_file(&rt, folder.as_str())?;
    Ok(())
}
