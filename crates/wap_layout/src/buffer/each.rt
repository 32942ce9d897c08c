//! Lines, one by one.
ghost use Rattle.std.specs.Prelude.{◌≡◌, [], MatchOption};
ghost use Rattle.wap_layout.specs.buffer.inside.Cuts.{lines_at, AreLines, IsNext};

use std::marker::Model;

/// Lines, one by one. A contract sees the list of those that are still to come.
#[derive(Drop)]
pub struct EachLine<'a> {
    written: &'a [u8],
    lengths: &'a [usize],
}

impl<'a> Model for EachLine<'a> {
    ghost use Rattle.std.specs.Prelude.{List, ℕ};
    ghost use Rattle.wap_layout.specs.buffer.inside.Cuts.{lines_at, AreLines};

    ghost Value = { List (List ℕ) };

    ghost view = { λ each. lines_at each.written.now each.lengths.now };

    ghost invariant = { λ each. AreLines each.written.now each.lengths.now };
}

/// The first line, and what is left after it.
#[inline(always)]
fn next_line<'a>(
    written: &'a [u8],
    lengths: &'a [usize],
) -> Option<(&'a str, &'a [u8], &'a [usize])>
    requires { AreLines written.now lengths.now }
    ensures { MatchOption result (lengths.now ≡ [])
        (λ next. IsNext written.now lengths.now next.0.now next.1.now next.2.now) }
{
    let (length, left) = lengths.split_first()?;
    let line = unsafe { str::from_utf8_unchecked(&written[..*length]) };
    Some((line, &written[*length + 1..], left))
}

impl<'a> EachLine<'a> {
    /// The lines that are written, each of so many bytes.
    pub(crate) fn of(written: &'a [u8], lengths: &'a [usize]) -> EachLine<'a>
        requires { AreLines written.now lengths.now }
        ensures { result ≡ lines_at written.now lengths.now }
    {
        EachLine { written, lengths }
    }
}

impl<'a> Iterator for EachLine<'a> {
    type Item = &'a str;

    ghost use Rattle.std.specs.Iterator.{YieldsFirstBy, item_count};
    ghost use Rattle.std.specs.Str.{chars};

    ghost next_gives = { YieldsFirstBy (λ line. chars line.now) (λ rest. rest) };

    ghost remaining = { item_count (λ rest. rest) };

    #[inline(always)]
    fn next(&mut self) -> Option<&'a str> {
        let (line, written, lengths) = next_line(self.written, self.lengths)?;
        self.written = written;
        self.lengths = lengths;
        Some(line)
    }
}
