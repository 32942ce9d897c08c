//! A case, as its lines say it.
use crate::files::numbers::Numbers;
use crate::files::wml::deck_bytes;
use crate::{CaseFault, Pieces, range, spelled_bytes, spelled_text, split_value, split_word, text};
use std::alloc::Global;
use wap_base::{Bytes, Text};

/// A page of the store.
#[derive(Drop)]
pub(crate) struct Page {
    pub(crate) name: Text,
    pub(crate) bytes: Bytes,
    /// Its bytes are the text of a deck.
    is_deck: bool,
}

impl Page {
    /// Appends a further line: of a deck without the blanks before it, or of a source.
    fn add_line(&mut self, line: &[u8]) -> Result<(), CaseFault> {
        if self.is_deck {
            add_both(&mut self.bytes, b"", line.trim_ascii_start())
        } else {
            add_both(&mut self.bytes, b"\n", line)
        }
    }

    /// Takes the bytes of a deck's document in place of its text.
    fn write(&mut self, alloc: Global) -> Result<(), CaseFault> {
        if self.is_deck {
            self.bytes = deck_bytes(alloc, self.bytes.as_slice())?;
        }
        Ok(())
    }
}

/// A case: what a run begins with, and what is wanted of it.
#[derive(Drop)]
pub struct Case {
    pub(crate) name: Bytes,
    /// The number of its first line.
    pub(crate) line: usize,
    pub(crate) is_begun: bool,
    pub(crate) pages: Vec<Page>,
    /// Whether the text of the last page may go on.
    is_open: bool,
    pub words: Vec<Text>,
    pub(crate) keys: Bytes,
    /// What is said of the devices, and how often they are called.
    pub(crate) numbers: Numbers,
    /// What is written.
    pub(crate) shown: Bytes,
    /// The number of the status and its line.
    pub(crate) status: Bytes,
    /// The line of the status can't be written.
    pub(crate) is_unprinted: bool,
    /// No run is made, but memory is taken to have run out.
    pub is_without_memory: bool,
    /// The first line that can't be read, and why.
    pub(crate) fault: Option<(usize, CaseFault)>,
}

/// Reads a line that has nothing after its words and may stand once.
pub fn read_mark(mark: &mut bool, rest: &[u8]) -> Result<(), CaseFault> {
    if !rest.is_empty() {
        return Err(CaseFault::Line);
    }
    if *mark {
        return Err(CaseFault::Again);
    }
    *mark = true;
    Ok(())
}

/// Appends bytes and others after them, as a line and its end.
pub fn add_both(out: &mut Bytes, first: &[u8], second: &[u8]) -> Result<(), CaseFault> {
    out.add(first)?;
    out.add(second)?;
    Ok(())
}

/// Appends the bytes that a line spells.
pub fn add_spelled(
    out: &mut Bytes,
    alloc: Global,
    pieces: &Pieces,
    line: &[u8],
) -> Result<(), CaseFault> {
    let bytes = spelled_bytes(alloc, pieces, line, None)?;
    out.add(bytes.as_slice())?;
    Ok(())
}

impl Case {
    /// A case of no lines.
    pub(crate) fn new(alloc: Global) -> Case {
        Case {
            name: Bytes::new(alloc),
            line: 0,
            is_begun: false,
            pages: Vec::new(alloc),
            is_open: false,
            words: Vec::new(alloc),
            keys: Bytes::new(alloc),
            numbers: Numbers::new(alloc),
            shown: Bytes::new(alloc),
            status: Bytes::new(alloc),
            is_unprinted: false,
            is_without_memory: false,
            fault: None,
        }
    }

    /// Notes that the case has a line of this number, and why it can't be read, if it can't and is
    /// the first such.
    pub(crate) fn note(&mut self, number: usize, read: Result<(), CaseFault>) {
        if !self.is_begun {
            self.is_begun = true;
            self.line = number;
        }
        if let (None, Err(fault)) = (self.fault, read) {
            self.fault = Some((number, fault));
        }
    }

    /// Ends it, with its decks as pages, and notes where these can't be written.
    pub(crate) fn end(&mut self, alloc: Global) {
        let written = self.write_decks(alloc);
        self.note(self.line, written);
    }

    /// Reads the line of the name. An empty line ends a case, so that it has only one.
    pub(crate) fn read_name(&mut self, line: &[u8]) -> Result<(), CaseFault> {
        if line.is_empty() {
            return Err(CaseFault::Line);
        }
        if !self.name.is_empty() {
            return Err(CaseFault::Again);
        }
        self.name.add(line)?;
        Ok(())
    }

    /// Reads the number of the status, and its line.
    pub(crate) fn read_status(&mut self, line: &[u8]) -> Result<(), CaseFault> {
        if !self.status.is_empty() {
            return Err(CaseFault::Again);
        }
        add_both(&mut self.status, line, b"\n")
    }

    /// Adds the page of this name and these bytes, whose text isn't open.
    fn add_page(&mut self, name: Text, bytes: Bytes) -> Result<(), CaseFault> {
        let is_deck = false;
        self.is_open = false;
        self.pages.push(Page {
            name,
            bytes,
            is_deck,
        })?;
        Ok(())
    }

    /// Adds the page of a name and of bytes as they are spelled, under a number.
    fn add_numbered(
        &mut self,
        alloc: Global,
        pieces: &Pieces,
        spelled: (&[u8], &[u8]),
        number: u32,
    ) -> Result<(), CaseFault> {
        let name = spelled_text(alloc, pieces, spelled.0, Some(number))?;
        let bytes = spelled_bytes(alloc, pieces, spelled.1, Some(number))?;
        self.add_page(name, bytes)
    }

    /// Reads a line `NAME TEXT`, of a deck or of a source.
    pub(crate) fn read_text(
        &mut self,
        alloc: Global,
        line: &[u8],
        is_deck: bool,
    ) -> Result<(), CaseFault> {
        let (name, rest) = split_word(line);
        let name = text(alloc, name)?;
        let bytes = Bytes::of(alloc, rest)?;
        self.is_open = true;
        self.pages.push(Page {
            name,
            bytes,
            is_deck,
        })?;
        Ok(())
    }

    /// Reads a further line of a deck or of a source.
    pub(crate) fn read_more(&mut self, line: &[u8]) -> Result<(), CaseFault> {
        match self.pages.last_mut() {
            Some(page) if self.is_open => page.add_line(line),
            _ => Err(CaseFault::Line),
        }
    }

    /// Takes the bytes of each deck's document in place of its text.
    fn write_decks(&mut self, alloc: Global) -> Result<(), CaseFault> {
        for page in &mut self.pages {
            page.write(alloc)?;
        }
        Ok(())
    }

    /// Reads a line `NAME BYTES`.
    pub(crate) fn read_page(
        &mut self,
        alloc: Global,
        pieces: &Pieces,
        line: &[u8],
    ) -> Result<(), CaseFault> {
        let (name, bytes) = split_word(line);
        let name = text(alloc, name)?;
        let bytes = spelled_bytes(alloc, pieces, bytes, None)?;
        self.add_page(name, bytes)
    }

    /// Reads a line `FROM..TO NAME BYTES`, of one page for each number.
    pub(crate) fn read_pages(
        &mut self,
        alloc: Global,
        pieces: &Pieces,
        line: &[u8],
    ) -> Result<(), CaseFault> {
        let (numbers, rest) = split_word(line);
        let (from, to) = range(numbers)?;
        if from >= to {
            return Err(CaseFault::Spelling);
        }
        for number in from..to {
            self.add_numbered(alloc, pieces, split_value(rest), number)?;
        }
        Ok(())
    }

    /// Reads a word of the command.
    pub(crate) fn read_word(&mut self, alloc: Global, line: &[u8]) -> Result<(), CaseFault> {
        self.words.push(text(alloc, line)?)?;
        Ok(())
    }

    /// Reads a word of the command that is spelled.
    pub(crate) fn read_argument(
        &mut self,
        alloc: Global,
        pieces: &Pieces,
        line: &[u8],
    ) -> Result<(), CaseFault> {
        self.words.push(spelled_text(alloc, pieces, line, None)?)?;
        Ok(())
    }
}
