//! Standard output as a sink of what is shown.
ghost use Rattle.std.specs.Prelude.{◌≡◌, []};
ghost use Rattle.std.specs.Io.KnownBytes.{WriteAppends};
ghost use Rattle.wap_devices.specs.Sinks.{Writes};
ghost use Rattle.wap_system.specs.Adapters.{seen_of_writer};
ghost use Rattle.wap_system.specs.Writes.{faults_after};

use std::io::Write;
use std::marker::Model;
use wap_devices::{Count, Failed, History, Sink};

/// Standard output, or what else is written to. It keeps what it took, which clauses alone see. A
/// call that a signal interrupts has failed.
#[derive(Drop)]
pub struct StdoutSink<O> {
    writer: O,
    taken: History<u8>,
    writes: Count,
    faults: Count,
}

impl<O> Model for StdoutSink<O> {
    ghost use Rattle.wap_system.specs.Adapters.{WriterState};

    ghost Value = { WriterState O };

    ghost view = { λ sink.
        record {
          writer = sink.writer;
          taken = sink.taken.items;
          writes = sink.writes;
          faults = sink.faults;
        } };
}

impl<O> StdoutSink<O> {
    /// The sink of the bytes that the writer takes.
    pub fn new(writer: O) -> StdoutSink<O>
        ensures { result ≡ record { writer = writer; taken = []; writes = 0; faults = 0 } }
    {
        StdoutSink {
            writer,
            taken: History::new(),
            writes: Count::new(),
            faults: Count::new(),
        }
    }
}

impl<O: Write> Sink for StdoutSink<O> {
    ghost seen = { λ sink. seen_of_writer sink };

    fn write(&mut self, piece: &[u8]) -> Result<usize, Failed>
        ensures writes { Writes piece.now (seen_of_writer self.old) (seen_of_writer self.new)
            result }
        // The writer took what the sink answers that it took.
        ensures writer { WriteAppends (O.contents self.old.writer)
            (O.contents self.new.writer) result piece.now }
        ensures faults { self.new.faults ≡ faults_after self.old.faults piece.now result }
    {
        self.writes.add();
        match self.writer.write(piece) {
            Ok(count) => {
                self.faults.add_if(count == 0 && !piece.is_empty());
                self.taken = self.taken.and_all(&piece[..count]);
                Ok(count)
            }
            Err(_) => {
                self.faults.add();
                Err(Failed)
            }
        }
    }
}
