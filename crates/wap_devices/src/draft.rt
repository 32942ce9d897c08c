//! A text in memory that is written like any other, and grows.
ghost use Rattle.std.specs.Prelude.{◌≡◌, []};

use crate::{Count, Failed, Sink};
use std::alloc::Global;
use std::marker::Model;

/// A sink in memory that takes all that there is memory for.
#[derive(Drop)]
pub struct Draft {
    bytes: Vec<u8>,
    writes: Count,
    faults: Count,
}

impl Model for Draft {
    ghost use Rattle.wap_devices.specs.Sinks.{SinkSeen};

    ghost Value = { SinkSeen };

    ghost view = { λ draft.
        record { taken = draft.bytes.items; writes = draft.writes; faults = draft.faults } };
}

impl Draft {
    /// A draft in which nothing stands.
    pub fn new(alloc: Global) -> Draft
        ensures { result ≡ record { taken = []; writes = 0; faults = 0 } }
    {
        Draft {
            bytes: Vec::new(alloc),
            writes: Count::new(),
            faults: Count::new(),
        }
    }

    /// What stands in it.
    pub fn as_bytes(&self) -> &[u8]
        ensures { result.now ≡ self.now.taken }
    {
        self.bytes.as_slice()
    }
}

impl Sink for Draft {
    ghost seen = { λ draft. draft };

    fn write(&mut self, piece: &[u8]) -> Result<usize, Failed> {
        self.writes.add();
        match self.bytes.extend_from_slice(piece) {
            Ok(()) => Ok(piece.len()),
            Err(_) => {
                self.faults.add();
                Err(Failed)
            }
        }
    }
}
