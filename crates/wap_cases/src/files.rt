//! How files of cases and of calls are played.
use crate::{calls, runs};
use std::io::Read;
use std::process::ExitCode;
use std::rt::{Env, Files};
use std::thread::Threads;
use std::{env, fs};
use wap_casebook::Tally;
use wap_casebook::files::Played;

/// The status where nothing differs.
const ALIKE: u8 = 0;

/// The status where a case or a call differs.
const DIFFERING: u8 = 1;

/// The status where not all could be played.
const UNPLAYED: u8 = 2;

/// Tells of the cases or calls of a file that differ, counts them, and gives the status.
fn tell<R: Print>(rt: &R, all: &Played, file: &str, what: &str) -> u8 {
    let told = all.told.text.as_str();
    let Tally { played, differing } = all.tally;
    let told = println!(rt; "{told}{file}: {played} {what}, {differing} differ");
    if told.is_err() || all.told.is_full {
        UNPLAYED
    } else if differing > 0 {
        DIFFERING
    } else {
        ALIKE
    }
}

/// Plays the cases of standard input.
fn play_input<R: Input + Print + AllocGlobal + Threads + Sync>(rt: &R) -> u8 {
    let mut lines = Vec::new(rt.alloc());
    match rt.reader().read_to_end(&mut lines) {
        Ok(_) => {
            let all = runs::play_all(rt, rt.alloc(), lines.as_slice());
            tell(rt, &all, "standard input", "cases")
        }
        Err(_) => UNPLAYED,
    }
}

/// Plays the calls or the cases of a file.
fn play_file<R: Files + Print + AllocGlobal + Threads + Sync>(rt: &R, file: &str) -> u8 {
    let Ok(lines) = fs::read_to_string(rt, file) else {
        return UNPLAYED;
    };
    if file.ends_with(".calls") {
        let all = calls::play_all(rt.alloc(), lines.as_str());
        tell(rt, &all, file, "calls")
    } else {
        let all = runs::play_all(rt, rt.alloc(), lines.as_bytes());
        tell(rt, &all, file, "cases")
    }
}

/// Plays the files that the words of the program name, if any is, and gives the greatest status.
fn play_files<R: Files + Env + Print + AllocGlobal + Threads + Sync>(rt: &R) -> Option<u8> {
    let Ok(words) = env::args(rt) else {
        return Some(UNPLAYED);
    };
    let mut greatest = None;
    for file in words.skip(1) {
        let status = play_file(rt, file.as_str());
        greatest = Some(status.max(greatest.unwrap_or(ALIKE)));
    }
    greatest
}

/// Plays the files that the words of the program name, or without any the cases of standard input,
/// tells of each case and call that differs, and counts. The status is 1 where there is one, and 2
/// where a file can't be read, memory runs out or what is to be told can't be printed.
pub fn play_words<R: Input + Files + Env + Print + AllocGlobal + Threads + Sync>(
    rt: &R,
) -> ExitCode {
    match play_files(rt) {
        Some(status) => ExitCode::from(status),
        None => ExitCode::from(play_input(rt)),
    }
}
