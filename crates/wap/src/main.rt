//! The program `wap`: a browser for the pages of a folder.
#![tactic(auto)]

use std::env;
use std::io::ErrorKind;
use std::process::ExitCode;
use wap_base::{NoMemory, Text};
use wap_cli::{Status, run_here};
use wap_system::StdoutSink;

/// The folder that is named first, to be read by the handle beside it, and the words of the command
/// after it, where there is a folder and each word is UTF-8.
fn read_arguments(rt: &HostRuntime) -> Result<Option<(HostRuntime, String, Vec<Text>)>, NoMemory> {
    let given = match env::args(rt) {
        Ok(given) => given,
        Err(error) if matches!(error.kind(), ErrorKind::OutOfMemory) => return Err(NoMemory),
        Err(_) => return Ok(None),
    };
    let mut given = given.skip(1);
    let Some(folder) = given.next() else {
        return Ok(None);
    };
    let mut words = Vec::new(rt.alloc());
    for word in given {
        words.push(Text::from_string(word))?;
    }
    Ok(Some((rt.clone()?, folder, words)))
}

fn main(rt: HostRuntime) -> ExitCode {
    let status = match read_arguments(&rt) {
        Ok(Some((files, folder, words))) => {
            let words = words.as_slice();
            run_here(&rt, files, folder, words, rt.stdin(), rt.stdout()).status
        }
        Ok(None) => Status::Usage,
        Err(NoMemory) => Status::NoMemory,
    };
    let _unwritten = status.print(&mut StdoutSink::new(rt.stderr()));
    ExitCode::from(status.number())
}
