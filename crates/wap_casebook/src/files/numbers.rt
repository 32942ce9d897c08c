//! The numbers that a case says of its devices, and of what is wanted of them.
use crate::{CaseFault, number};
use std::alloc::Global;
use wap_base::NoMemory;

/// What numbers are said of.
#[derive(Clone, Copy, PartialEq)]
pub enum Subject {
    /// Which calls of the store fail.
    StoreFails,
    /// Which reads of keys fail.
    SourceFails,
    /// The most bytes that a read gives: the case is played once for each number.
    SourceGives,
    /// Which writes fail.
    SinkFails,
    /// The most bytes that a write takes.
    SinkTakes,
    /// For how many bytes the sink has room.
    SinkHolds,
    /// Which writes of the line of the status fail.
    ErrorFails,
    /// How often the store is called.
    Asked,
    /// How often the source is called.
    Reads,
    /// How many bytes the source has left.
    Left,
}

/// Numbers, each with what it is said of.
#[derive(Drop)]
pub struct Numbers {
    said: Vec<(Subject, u64)>,
}

impl Numbers {
    /// None yet.
    pub fn new(alloc: Global) -> Numbers {
        Numbers {
            said: Vec::new(alloc),
        }
    }

    /// Reads the line of a subject that has one number, from 0 on.
    pub fn read_one(&mut self, subject: Subject, line: &[u8]) -> Result<(), CaseFault> {
        self.begin(subject)?;
        self.add(subject, line, 0)
    }

    /// Reads the line of a subject that may have several numbers, from 1 on, with a blank between
    /// them.
    pub fn read_several(&mut self, subject: Subject, line: &[u8]) -> Result<(), CaseFault> {
        self.begin(subject)?;
        for word in line.split(|byte| *byte == b' ') {
            self.add(subject, word, 1)?;
        }
        Ok(())
    }

    /// Begins with the line of a subject, which stands once.
    fn begin(&self, subject: Subject) -> Result<(), CaseFault> {
        match self.last(subject) {
            Some(_) => Err(CaseFault::Again),
            None => Ok(()),
        }
    }

    /// Adds the number that a word spells, if it is no lower than the least.
    fn add(&mut self, subject: Subject, word: &[u8], least: u64) -> Result<(), CaseFault> {
        match u64::try_from(number(word)?) {
            Ok(number) if number >= least => Ok(self.said.push((subject, number))?),
            _ => Err(CaseFault::Spelling),
        }
    }

    /// The numbers that are said of a subject.
    pub fn all(&self, alloc: Global, subject: Subject) -> Result<Vec<u64>, NoMemory> {
        let mut all = Vec::new(alloc);
        for (of, number) in &self.said {
            if *of == subject {
                all.push(*number)?;
            }
        }
        Ok(all)
    }

    /// The number that is said last of a subject.
    pub fn last(&self, subject: Subject) -> Option<u64> {
        let mut last = None;
        for (of, number) in &self.said {
            if *of == subject {
                last = Some(*number);
            }
        }
        last
    }
}
