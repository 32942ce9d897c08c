//! The cases or calls of a file, one after the other, and what is told of them.
use crate::files::Case;
use crate::files::lines::read;
use crate::files::telling::Told;
use crate::{Call, CaseFault, Pieces, Tally};
use std::alloc::Global;
use std::mem;

/// What is told of the cases or calls that were played, and how many they are.
#[derive(Drop)]
pub struct Played {
    pub tally: Tally,
    pub told: Told,
}

impl Played {
    /// None yet.
    pub fn new(alloc: Global) -> Played {
        Played {
            tally: Tally::default(),
            told: Told::new(alloc),
        }
    }

    /// Takes a case that was played, with in what its runs differ from what is wanted, or why it
    /// couldn't be played to its end.
    pub fn add(
        &mut self,
        alloc: Global,
        case: &Case,
        differences: Told,
        ran: Result<(), CaseFault>,
    ) {
        let mut differences = differences;
        if let Err(fault) = ran {
            differences.add_fault(case, fault);
        }
        let differs = differences.is_full || !differences.text.is_empty();
        self.tally.count(differs);
        if differs {
            self.told.add_head(alloc, case);
            self.told.add_all(&differences);
        }
    }

    /// Takes the call of a line that was played, and tells of it where it differs.
    pub fn add_call(&mut self, call: &Call, line: &str, number: usize) {
        let differs = call.differs();
        self.tally.count(differs);
        if differs {
            self.told.add_call(call, line, number);
        }
    }
}

/// The case whose lines are read, and the pieces before it.
#[derive(Drop)]
pub struct Reading {
    case: Case,
    pieces: Pieces,
}

impl Reading {
    /// Nothing was read yet.
    pub fn new(alloc: Global) -> Reading {
        Reading {
            case: Case::new(alloc),
            pieces: Pieces::new(alloc),
        }
    }

    /// Gives the case that was read, if it has lines, with its decks as pages, and begins with the
    /// next.
    pub fn end(&mut self, alloc: Global) -> Option<Case> {
        let mut case = mem::replace(&mut self.case, Case::new(alloc));
        if !case.is_begun {
            return None;
        }
        case.end(alloc);
        Some(case)
    }

    /// Takes the line of a number, and gives the case that it ends: an empty line ends one.
    pub fn take(&mut self, alloc: Global, line: &[u8], number: usize) -> Option<Case> {
        if line.is_empty() {
            return self.end(alloc);
        }
        read(&mut self.case, alloc, &mut self.pieces, line, number);
        None
    }
}
