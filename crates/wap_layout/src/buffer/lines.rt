//! `Lines`, which stand one after the other in one buffer.
ghost use Rattle.std.specs.Prelude.{◌≡◌, [], ◌∷◌, ◌++◌, length, take, OnOk, OnErr};
ghost use Rattle.std.specs.Str.{chars};
ghost use Rattle.wap_base.specs.Ascii.{line_feed};
ghost use Rattle.wap_layout.specs.buffer.Written.{lines_bytes};

use crate::buffer::EachLine;
use smallvec::SmallVec;
use std::alloc::Global;
use std::marker::Model;
use wap_base::NoMemory;

/// How many bytes are written without memory of their own, so that the line of a key that does
/// nothing takes none.
const FEW: usize = 24;

/// Lines in order. A contract sees the list of them, each as the list of its characters; inside
/// they are written one after the other in UTF-8, each with a line feed, and their lengths in bytes
/// stand beside that.
#[derive(Debug, Drop)]
pub struct Lines {
    written: SmallVec<u8, FEW>,
    lengths: SmallVec<usize, 1>,
}

impl Model for Lines {
    ghost use Rattle.std.specs.Prelude.{List, ℕ};
    ghost use Rattle.wap_layout.specs.buffer.inside.Cuts.{lines_at, AreLines};

    ghost Value = { List (List ℕ) };

    ghost view = { λ lines. lines_at lines.written.items lines.lengths.items };

    ghost invariant = { λ lines. AreLines lines.written.items lines.lengths.items };
}

/// Writes a line and a line feed. When out of memory some of it may be written.
fn write_line(written: &mut SmallVec<u8, FEW>, line: &str) -> Result<(), NoMemory>
    ensures ok { OnOk result
        (written.new.items ≡ written.old.items ++ (line.now ++ line_feed ∷ [])) }
    ensures kept { take (length written.old.items) written.new.items ≡ written.old.items }
{
    written.reserve(line.len() + 1)?;
    written.extend_from_slice(line.as_bytes())?;
    written.push(b'\n')?;
    Ok(())
}

impl Lines {
    /// No lines yet, and the allocator for those to come.
    pub fn new(alloc: Global) -> Lines
        ensures { result ≡ [] }
    {
        Lines {
            written: SmallVec::new(alloc),
            lengths: SmallVec::new(alloc),
        }
    }

    /// How many lines there are.
    #[tactic(auto, using(crate::proofs::BufferLemmas::CutLaws::many_lines))]
    pub fn len(&self) -> usize
        ensures { result ≡ length self.now }
    {
        self.lengths.len()
    }

    /// The lines as they are written: each line's UTF-8, and a line feed.
    pub fn as_written(&self) -> &[u8]
        ensures { result.now ≡ lines_bytes self.now }
    {
        self.written.as_slice()
    }

    /// The lines, one by one.
    pub fn each(&self) -> EachLine<'_>
        ensures { result ≡ self.now }
    {
        EachLine::of(self.written.as_slice(), self.lengths.as_slice())
    }

    /// Adds a line at the end. When out of memory nothing is added.
    pub fn add(&mut self, line: &str) -> Result<(), NoMemory>
        ensures ok { OnOk result (self.new ≡ self.old ++ chars line.now ∷ []) }
        ensures err { OnErr result (self.new ≡ self.old) }
    {
        self.lengths.push(line.len())?;
        let before = self.written.len();
        match write_line(&mut self.written, line) {
            Ok(()) => Ok(()),
            Err(fault) => {
                self.written.truncate(before);
                let _length = self.lengths.pop();
                Err(fault)
            }
        }
    }

    /// Adds lines at the end. When out of memory nothing is added.
    pub fn append(&mut self, more: &Lines) -> Result<(), NoMemory>
        ensures ok { OnOk result (self.new ≡ self.old ++ more.now) }
        ensures err { OnErr result (self.new ≡ self.old) }
    {
        let before = self.written.len();
        self.written.extend_from_slice(more.written.as_slice())?;
        match self.lengths.extend_from_slice(more.lengths.as_slice()) {
            Ok(()) => Ok(()),
            Err(_) => {
                self.written.truncate(before);
                Err(NoMemory)
            }
        }
    }
}
