//! What is told of cases and calls that differ.
use crate::files::numbers::Subject;
use crate::files::{Case, Outcome};
use crate::{Call, CaseFault};
use std::alloc::{AllocError, Global};

/// The most bytes that are shown of what differs.
const MOST: usize = 400;

/// Where the line begins in which two texts differ first.
fn fork(wanted: &[u8], came: &[u8]) -> usize {
    let mut begin = 0;
    for (at, byte) in wanted.iter().enumerate() {
        let Some(other) = came.get(at) else {
            break;
        };
        if *other != *byte {
            break;
        }
        if *byte == b'\n' {
            begin = at.saturating_add(1);
        }
    }
    begin
}

/// What is told, and whether memory ran out for more.
#[derive(Drop)]
pub struct Told {
    pub text: String,
    pub is_full: bool,
}

impl Told {
    /// Nothing yet.
    pub fn new(alloc: Global) -> Told {
        Told {
            text: String::new(alloc),
            is_full: false,
        }
    }

    /// Notes whether a text could be appended.
    fn note(&mut self, written: Result<(), AllocError>) {
        if written.is_err() {
            self.is_full = true;
        }
    }

    /// Appends a text.
    pub(crate) fn add(&mut self, text: &str) {
        let written = self.text.push_str(text);
        self.note(written);
    }

    /// Appends what else is told.
    pub(crate) fn add_all(&mut self, other: &Told) {
        self.add(other.text.as_str());
        self.is_full = self.is_full || other.is_full;
    }

    /// Appends a number.
    fn add_number(&mut self, number: u64) {
        let written = write!(self.text, "{number}");
        self.note(written);
    }

    /// Appends bytes from a place on in quotes, as many as are shown.
    fn add_quoted(&mut self, alloc: Global, bytes: &[u8], from: usize) {
        let rest = bytes.get(from..).unwrap_or(b"");
        let shown = rest.get(..MOST).unwrap_or(rest);
        let Ok(shown) = String::from_utf8_lossy(alloc, shown) else {
            self.is_full = true;
            return;
        };
        let written = write!(self.text, "{shown:?}");
        self.note(written);
    }

    /// Appends in what two texts of this name differ, if they do.
    fn add_text(&mut self, alloc: Global, name: &str, wanted: &[u8], came: &[u8]) {
        if wanted == came {
            return;
        }
        let from = fork(wanted, came);
        self.add(name);
        self.add(" from byte ");
        self.add_number(from as u64);
        self.add("\n      wanted ");
        self.add_quoted(alloc, wanted, from);
        self.add("\n      came   ");
        self.add_quoted(alloc, came, from);
        self.add("\n");
    }

    /// Appends a line that tells of a difference, if there is one.
    fn add_if(&mut self, differs: bool, told: &str) {
        if differs {
            self.add(told);
        }
    }

    /// Appends in what the bytes differ that the source has left, where a number is wanted.
    fn add_left(&mut self, wanted: Option<u64>, left: u64) {
        match wanted {
            Some(wanted) if wanted != left => {
                self.add("    left: wanted ");
                self.add_number(wanted);
                self.add(", came ");
                self.add_number(left);
                self.add("\n");
            }
            _ => {}
        }
    }

    /// Appends the name of a case and where it stands.
    pub(crate) fn add_head(&mut self, alloc: Global, case: &Case) {
        self.add("case ");
        match String::from_utf8_lossy(alloc, case.name.as_slice()) {
            Ok(name) => self.add(name.as_str()),
            Err(_) => self.is_full = true,
        }
        self.add(" at line ");
        self.add_number(case.line as u64);
        self.add("\n");
    }

    /// Appends why a case isn't played, and the line that can't be read.
    pub(crate) fn add_fault(&mut self, case: &Case, fault: CaseFault) {
        self.add("    ");
        if let Some((line, _)) = case.fault {
            self.add("line ");
            self.add_number(line as u64);
            self.add(": ");
        }
        self.add(fault.message());
        self.add("\n");
    }

    /// Appends the line of a call and its number, and what it gave, or why it isn't played.
    pub(crate) fn add_call(&mut self, call: &Call, line: &str, number: usize) {
        let (told, what) = call.outcome();
        self.add("line ");
        self.add_number(number as u64);
        self.add(": ");
        self.add(line);
        self.add("\n    ");
        self.add(told);
        self.add(what);
        self.add("\n");
    }
}

impl Case {
    /// Appends in what a run differs from what is wanted, in whole lines; nothing where it doesn't.
    pub fn add_differences(&self, out: &mut Told, alloc: Global, came: &Outcome) {
        let (wanted, status) = (self.status.as_slice(), came.status.as_slice());
        out.add_text(alloc, "    status", wanted, status);
        let (wanted, shown) = (self.shown.as_slice(), came.shown.as_slice());
        out.add_text(alloc, "    shown", wanted, shown);
        let is_other = self.is_unprinted != came.is_unprinted;
        out.add_if(
            is_other,
            "    the line of the status is written, or isn't\n",
        );
        out.add_if(!came.is_asked, "    the store was not called as often\n");
        out.add_if(!came.is_read, "    the source was not called as often\n");
        out.add_left(self.numbers.last(Subject::Left), came.left);
    }
}
