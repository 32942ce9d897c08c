//! Places in a source.
use std::{fmt, str};

/// A place in a source, shown as line and column, both from 1.
#[derive(Clone, Copy)]
pub(crate) struct Place {
    pub(crate) line: usize,
    /// How many characters stand before it on its line.
    pub(crate) before: usize,
}

impl fmt::Display for Place {
    fn fmt<W: fmt::Write>(&self, f: &mut fmt::Formatter<W>) -> fmt::Result {
        let column = self.before.saturating_add(1);
        write!(f, "line {}, column {column}", self.line)
    }
}

/// How many characters bytes have, or how many bytes where they are no text.
pub(crate) fn width_of(bytes: &[u8]) -> usize {
    str::from_utf8(bytes).map_or(bytes.len(), |text| text.chars().count())
}

/// The place of an offset.
pub(crate) fn place_of(source: &[u8], at: usize) -> Place {
    let mut place = Place { line: 0, before: 0 };
    for line in source
        .get(..at)
        .unwrap_or(source)
        .split(|byte| *byte == b'\n')
    {
        place = Place {
            line: place.line.saturating_add(1),
            before: width_of(line),
        };
    }
    place
}
