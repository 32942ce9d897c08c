//! Runs of the program over the devices of cases.
use std::alloc::Global;
use std::thread::Threads;
use wap_casebook::CaseFault;
use wap_casebook::files::{Case, Outcome, Played, Reading, Told};
use wap_cli::{Status, run};
use wap_devices::{MemSource, MemStore, NoGate};

/// The outcome of a run that ended so.
fn outcome_of(
    alloc: Global,
    case: &Case,
    status: Status,
    shown: &[u8],
) -> Result<Outcome, CaseFault> {
    let mut error = case.error(alloc)?;
    let is_unprinted = status.print(&mut error).is_err();
    let line = error.bytes();
    Ok(Outcome::new(alloc, status.number(), line, is_unprinted, shown)?)
}

/// Runs the program over the store and the source of a case, and gives the store back.
fn run_over<R: Threads + Sync>(
    rt: &R,
    alloc: Global,
    case: &Case,
    source: &mut MemSource,
) -> Result<(Outcome, MemStore), CaseFault> {
    let store = case.store(alloc)?;
    let mut out = case.sink(alloc)?;
    let words = case.words.as_slice();
    let (status, store) = run(rt, alloc, words, store, source, &mut out, &NoGate);
    Ok((outcome_of(alloc, case, status, out.bytes())?, store))
}

/// What comes of a run over the devices of a case, whose source gives so many bytes at a time.
fn run_case<R: Threads + Sync>(
    rt: &R,
    alloc: Global,
    case: &Case,
    piece: u64,
) -> Result<Outcome, CaseFault> {
    if case.is_without_memory {
        return outcome_of(alloc, case, Status::NoMemory, b"");
    }
    let mut source = case.source(alloc, piece)?;
    let (mut outcome, mut store) = run_over(rt, alloc, case, &mut source)?;
    outcome.look_at(case, &mut store, &mut source);
    Ok(outcome)
}

/// Appends in what a run of a case differs from what is wanted.
fn add_run<R: Threads + Sync>(
    out: &mut Told,
    rt: &R,
    alloc: Global,
    case: &Case,
    piece: u64,
) -> Result<(), CaseFault> {
    let came = run_case(rt, alloc, case, piece)?;
    case.add_differences(out, alloc, &came);
    Ok(())
}

/// Appends in what the runs of a case differ from what is wanted.
fn add_runs<R: Threads + Sync>(
    out: &mut Told,
    rt: &R,
    alloc: Global,
    case: &Case,
) -> Result<(), CaseFault> {
    for piece in &case.pieces(alloc)? {
        add_run(out, rt, alloc, case, *piece)?;
    }
    Ok(())
}

/// Plays a case, if one was read.
fn play<R: Threads + Sync>(played: &mut Played, rt: &R, alloc: Global, case: Option<Case>) {
    if let Some(case) = case {
        let mut differences = Told::new(alloc);
        let ran = add_runs(&mut differences, rt, alloc, &case);
        played.add(alloc, &case, differences, ran);
    }
}

/// Plays the cases of these lines, counts them, and tells of those that differ.
pub fn play_all<R: Threads + Sync>(rt: &R, alloc: Global, lines: &[u8]) -> Played {
    let mut played = Played::new(alloc);
    let mut reading = Reading::new(alloc);
    for (at, line) in lines.split(|byte| *byte == b'\n').enumerate() {
        let case = reading.take(alloc, line, at.saturating_add(1));
        play(&mut played, rt, alloc, case);
    }
    play(&mut played, rt, alloc, reading.end(alloc));
    played
}
