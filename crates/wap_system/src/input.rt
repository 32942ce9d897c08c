//! Standard input as a source of key lines.
ghost use Rattle.std.specs.Prelude.{◌≡◌, ◌<◌, [], length, is_err, if◌then◌else◌, ◌+◌};
ghost use Rattle.std.specs.Io.KnownBytes.{ReadConsumes};
ghost use Rattle.wap_devices.specs.Sources.{Reads};
ghost use Rattle.wap_system.specs.Adapters.{seen_of_reader};

use std::io::Read;
use std::marker::Model;
use wap_devices::{Count, Failed, History, Source};

/// The most bytes that one read takes.
const PIECE: usize = 4096;

/// Standard input, or what else is read. It keeps what it gave, which clauses alone see. A call
/// that a signal interrupts has failed.
#[derive(Drop)]
pub struct StdinSource<I> {
    reader: I,
    given: History<u8>,
    reads: Count,
    ends: Count,
    faults: Count,
}

impl<I> Model for StdinSource<I> {
    ghost use Rattle.wap_system.specs.Adapters.{ReaderState};

    ghost Value = { ReaderState I };

    ghost view = { λ source. record {
      reader = source.reader;
      given = source.given.items;
      reads = source.reads;
      ends = source.ends;
      faults = source.faults;
    } };
}

impl<I> StdinSource<I> {
    /// The source of the bytes that the reader still has.
    pub fn new(reader: I) -> StdinSource<I>
        ensures { result
            ≡ record { reader = reader; given = []; reads = 0; ends = 0; faults = 0 } }
    {
        StdinSource {
            reader,
            given: History::new(),
            reads: Count::new(),
            ends: Count::new(),
            faults: Count::new(),
        }
    }
}

impl<I: Read> Source for StdinSource<I> {
    ghost seen = { λ source. seen_of_reader source };

    fn read(&mut self, buffer: &mut [u8]) -> Result<usize, Failed>
        requires { 0 < length buffer.old }
        ensures reads { Reads buffer.old buffer.new (seen_of_reader self.old)
            (seen_of_reader self.new) result }
        // The reader gave what the source gives.
        ensures reader { ReadConsumes (I.remaining self.old.reader)
            (I.remaining self.new.reader) result buffer.new }
        ensures faults { self.new.faults
            ≡ (if is_err result then self.old.faults + 1 else self.old.faults) }
    {
        // A piece of its own, since a read that fails may have written to what it was given.
        let mut piece = [0; PIECE];
        self.reads.add();
        let room = buffer.len().min(PIECE);
        match self.reader.read(&mut piece[..room]) {
            Ok(count) => {
                buffer[..count].copy_from_slice(&piece[..count]);
                self.given = self.given.and_all(&piece[..count]);
                self.ends.add_if(count == 0);
                Ok(count)
            }
            Err(_) => {
                self.faults.add();
                Err(Failed)
            }
        }
    }
}
