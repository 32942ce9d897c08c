//! The call of a line.
use crate::spelling::spelled_bytes;
use crate::words::{number, split_value, text};
use crate::{CaseFault, Pieces};
use std::alloc::{AllocError, Global};
use std::fmt::Debug;
use wap_base::{Bytes, Text};

/// A call that a line has: its arguments, which are taken one after the other, and what it gives,
/// which is compared with what the line says.
///
/// Where an argument is missing or misspelled, a call goes on with an empty one or 0, and doesn't
/// count as played in the end. The same holds where memory runs out when something is given.
#[derive(Drop)]
pub struct Call<'a> {
    alloc: Global,
    pieces: Pieces,
    /// The line from the next argument on.
    arguments: &'a [u8],
    /// The line from the next value on that has to be given.
    wanted: &'a [u8],
    /// What was given, as a line spells it, a blank before each value.
    given: String,
    is_as_wanted: bool,
    fault: Option<CaseFault>,
}

/// What stands after the `=` of a line.
fn results_of(line: &[u8]) -> &[u8] {
    let mut rest = line;
    for _ in 0..line.len() {
        let (value, others) = split_value(rest);
        rest = others;
        if value.is_empty() || value == b"=".as_slice() {
            break;
        }
    }
    rest
}

impl<'a> Call<'a> {
    /// No call yet.
    pub fn new(alloc: Global) -> Call<'a> {
        Call {
            alloc,
            pieces: Pieces::new(alloc),
            arguments: b"",
            wanted: b"",
            given: String::new(alloc),
            is_as_wanted: true,
            fault: None,
        }
    }

    /// What memory is taken from.
    pub fn alloc(&self) -> Global {
        self.alloc
    }

    /// Begins with the call of a line `ARGUMENTS = RESULT`, and forgets what an earlier one took and
    /// gave.
    pub fn begin(&mut self, line: &'a [u8]) {
        self.arguments = line;
        self.wanted = results_of(line);
        self.given = String::new(self.alloc);
        self.is_as_wanted = true;
        self.fault = None;
    }

    /// Gives a name to bytes, by a line `NAME BYTES`, for later calls.
    pub fn define(&mut self, line: &[u8]) -> Result<(), CaseFault> {
        self.begin(b"");
        self.pieces.define(self.alloc, line)
    }

    /// Whether what came of the call isn't what its line says.
    pub fn differs(&self) -> bool {
        self.fault.is_some() || !self.is_as_wanted || !split_value(self.wanted).0.is_empty()
    }

    /// Notes that the call was made, which takes all of its arguments.
    pub fn end(&mut self) {
        if self.has_more() {
            self.fail(CaseFault::Argument);
        }
    }

    /// What to tell of the call: what it gave, or why it isn't played.
    pub fn outcome(&self) -> (&str, &str) {
        match self.fault {
            Some(fault) => ("not played: ", fault.message()),
            None => ("came", self.given.as_str()),
        }
    }

    /// The call isn't played, for this reason.
    pub fn fail(&mut self, fault: CaseFault) {
        if self.fault.is_none() {
            self.fault = Some(fault);
        }
    }
}

/// How a call takes arguments.
impl<'a> Call<'a> {
    /// The next argument, as the line spells it, or nothing where none is left.
    fn next(&self) -> &'a [u8] {
        let value = split_value(self.arguments).0;
        if value == b"=".as_slice() { b"" } else { value }
    }

    /// Passes over the next argument.
    fn pass(&mut self) {
        self.arguments = split_value(self.arguments).1;
    }

    /// Whether an argument is left.
    pub fn has_more(&self) -> bool {
        !self.next().is_empty()
    }

    /// Passes over the next argument where it is this word, and answers whether it is.
    pub fn takes(&mut self, word: &str) -> bool {
        let is_next = self.next() == word.as_bytes();
        if is_next {
            self.pass();
        }
        is_next
    }

    /// Whether the next argument begins as a text does.
    pub fn is_text_next(&self) -> bool {
        matches!(self.next(), [b'"' | b'(', ..])
    }

    /// The next argument as it stands.
    pub fn word(&mut self) -> &'a [u8] {
        let word = self.next();
        if word.is_empty() {
            self.fail(CaseFault::Argument);
        } else {
            self.pass();
        }
        word
    }

    /// The next argument, a word that has a meaning.
    pub fn meaning<T: Copy>(&mut self, meanings: &[(&str, T)]) -> Result<T, CaseFault> {
        meaning_of(meanings, self.word()).ok_or(CaseFault::Argument)
    }

    /// The next argument, a number.
    pub fn number(&mut self) -> i64 {
        match number(self.word()) {
            Ok(number) => number,
            Err(fault) => {
                self.fail(fault);
                0
            }
        }
    }

    /// The next argument, a number from 0 on.
    pub fn count(&mut self) -> usize {
        match usize::try_from(self.number()) {
            Ok(count) => count,
            Err(_) => {
                self.fail(CaseFault::Argument);
                0
            }
        }
    }

    /// The next argument, a number of 8 bits.
    pub fn number8(&mut self) -> u8 {
        match u8::try_from(self.number()) {
            Ok(number) => number,
            Err(_) => {
                self.fail(CaseFault::Argument);
                0
            }
        }
    }

    /// The next argument, a number of 32 bits.
    pub fn number32(&mut self) -> u32 {
        match u32::try_from(self.number()) {
            Ok(number) => number,
            Err(_) => {
                self.fail(CaseFault::Argument);
                0
            }
        }
    }

    /// The next argument, bytes.
    pub fn bytes(&mut self) -> Bytes {
        let word = self.word();
        match spelled_bytes(self.alloc, &self.pieces, word, None) {
            Ok(bytes) => bytes,
            Err(fault) => {
                self.fail(fault);
                Bytes::new(self.alloc)
            }
        }
    }

    /// The next argument, a text.
    pub fn text(&mut self) -> Text {
        let bytes = self.bytes();
        match text(self.alloc, bytes.as_slice()) {
            Ok(text) => text,
            Err(fault) => {
                self.fail(fault);
                Text::new(self.alloc)
            }
        }
    }
}

/// The meaning of a word, if it has one.
pub fn meaning_of<T: Copy>(meanings: &[(&str, T)], word: &[u8]) -> Option<T> {
    for (known, meaning) in meanings {
        if known.as_bytes() == word {
            return Some(*meaning);
        }
    }
    None
}

/// Appends a blank and a word.
fn add_word(out: &mut String, word: &str) -> Result<(), AllocError> {
    out.push_str(" ")?;
    out.push_str(word)
}

/// Appends bytes of a row, two hexadecimal digits each.
fn add_bytes(out: &mut String, bytes: &[u8]) -> Result<(), AllocError> {
    out.push_str(if bytes.is_empty() { " \"\"" } else { " " })?;
    for byte in bytes {
        write!(out, "{byte:02X}")?;
    }
    Ok(())
}

/// How a call gives results.
impl<'a> Call<'a> {
    /// The next value that has to be given, as the line spells it.
    fn next_wanted(&mut self) -> &'a [u8] {
        let (value, rest) = split_value(self.wanted);
        self.wanted = rest;
        value
    }

    /// Gives a word.
    pub fn give_word(&mut self, word: &str) {
        let is_wanted = self.next_wanted() == word.as_bytes();
        let told = add_word(&mut self.given, word);
        self.note(is_wanted, told);
    }

    /// Gives the name of a value and what it holds, as `Debug` writes them without the names of
    /// fields.
    pub fn give_named<T: Debug>(&mut self, value: &T) {
        match format!(in self.alloc; "{value:?}") {
            Ok(shown) => self.give_words(shown.as_str()),
            Err(_) => self.fail(CaseFault::NoMemory),
        }
    }

    /// Gives the words of a value as `Debug` writes it, but for braces and the names of fields.
    fn give_words(&mut self, shown: &str) {
        for word in shown.split_whitespace() {
            let word = match word.split_once(',') {
                Some((before, _)) => before,
                None => word,
            };
            if word != "{" && word != "}" && !word.ends_with(':') {
                self.give_word(word);
            }
        }
    }

    /// Gives a number.
    pub fn give_number(&mut self, given: i64) {
        self.give_named(&given);
    }

    /// Gives a number that counts something.
    pub fn give_count(&mut self, count: usize) {
        self.give_named(&count);
    }

    /// Gives a text.
    pub fn give_text(&mut self, text: &Text) {
        let is_wanted = self.wants(text.as_str().as_bytes());
        let text = text.as_str();
        let told = write!(self.given, " {text:?}");
        self.note(is_wanted, told);
    }

    /// Gives bytes.
    pub fn give_bytes(&mut self, bytes: &[u8]) {
        let is_wanted = self.wants(bytes);
        let told = add_bytes(&mut self.given, bytes);
        self.note(is_wanted, told);
    }

    /// Whether the next value that is wanted spells these bytes.
    fn wants(&mut self, bytes: &[u8]) -> bool {
        let wanted = self.next_wanted();
        match spelled_bytes(self.alloc, &self.pieces, wanted, None) {
            Ok(spelled) => !wanted.is_empty() && spelled.as_slice() == bytes,
            Err(_) => false,
        }
    }

    /// Notes whether what was given is wanted, and can be told.
    fn note(&mut self, is_wanted: bool, told: Result<(), AllocError>) {
        self.is_as_wanted = self.is_as_wanted && is_wanted;
        if told.is_err() {
            self.fail(CaseFault::NoMemory);
        }
    }
}
