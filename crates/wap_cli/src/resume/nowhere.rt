//! A sink that drops what it takes.
ghost use Rattle.std.specs.Prelude.{◌≡◌};
ghost use Rattle.wap_devices.specs.Sinks.{Writes};
ghost use Rattle.wap_cli.specs.resume.Saving.{nothing_dropped, nowhere};

use std::marker::Model;
use wap_devices::{Count, Failed, History, Sink};

/// What is written here is dropped: what it was is kept for clauses alone.
#[derive(Drop)]
pub(crate) struct Nowhere {
    taken: History<u8>,
    writes: Count,
}

impl Model for Nowhere {
    ghost use Rattle.wap_cli.specs.resume.Saving.{Dropped};

    ghost Value = { Dropped };

    ghost view = { λ sink. record { taken = sink.taken.items; writes = sink.writes } };
}

impl Nowhere {
    /// Nothing was dropped yet.
    pub(crate) fn new() -> Nowhere
        ensures { result ≡ nothing_dropped }
    {
        Nowhere {
            taken: History::new(),
            writes: Count::new(),
        }
    }
}

impl Sink for Nowhere {
    ghost seen = { nowhere };

    fn write(&mut self, piece: &[u8]) -> Result<usize, Failed>
        ensures { Writes piece.now (nowhere self.old) (nowhere self.new) result }
    {
        self.writes.add();
        self.taken = self.taken.and_all(piece);
        Ok(piece.len())
    }
}
