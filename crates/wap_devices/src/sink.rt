//! Where what is shown goes to.
ghost use Rattle.std.specs.Prelude.{◌≡◌, ◌≤◌, [], true, ◌↔◌, IfOk, IsErr};
ghost use Rattle.wap_devices.specs.Sinks.{SinkSeen, Writes, Puts};
ghost use Rattle.wap_devices.specs.Fakes.{SinkState, fresh, fails_write, write_count};
ghost use Rattle.wap_devices.specs.Fakes.{seen_of_sink, after_write};

use crate::Failed;
use crate::calls::Calls;
use std::alloc::Global;
use std::marker::Model;
use wap_base::NoMemory;

/// A sink of bytes that may fail.
pub trait Sink {
    /// What a contract sees of it.
    ghost seen: { Self → SinkSeen };

    /// Takes a prefix of the piece, and answers its length.
    fn write(&mut self, piece: &[u8]) -> Result<usize, Failed>
        ensures { Writes piece.now (seen self.old) (seen self.new) result };
}

/// Writes the whole piece, in as many calls as the sink needs. After a fault a prefix of it was
/// written.
pub fn write_all<O: Sink>(out: &mut O, piece: &[u8]) -> Result<(), Failed>
    ensures { Puts piece.now (O.seen out.old) (O.seen out.new) result }
{
    let mut rest = piece;
    while !rest.is_empty() {
        let count = out.write(rest)?;
        if count == 0 {
            return Err(Failed);
        }
        rest = rest.split_at(count).1;
    }
    Ok(())
}

/// A sink in memory.
#[derive(Drop)]
pub struct MemSink {
    written: Vec<u8>,
    room: usize,
    piece: usize,
    calls: Calls,
}

impl Model for MemSink {
    ghost use Rattle.std.specs.Prelude.{◌≤◌, length, vec_capacity};
    ghost use Rattle.wap_devices.specs.Fakes.{SinkState};

    ghost Value = { SinkState };

    ghost view = { λ sink. record {
      written = sink.written.items;
      room = sink.room;
      piece = sink.piece;
      calls = sink.calls;
    } };

    ghost invariant = { λ sink. (length sink.written.items ≤ sink.room)
        × (sink.room ≤ vec_capacity sink.written) × (1 ≤ sink.piece) };
}

impl MemSink {
    /// A sink that holds `room` bytes, which are taken now, and of which a call moves at most
    /// `piece`. `fail` has the numbers, from 1, of the calls that fail.
    pub fn new(
        alloc: Global,
        room: usize,
        piece: usize,
        fail: Vec<u64>,
    ) -> Result<MemSink, NoMemory>
        requires { 1 ≤ piece }
        ensures holds { IfOk result (λ sink.
            sink ≡ record { written = []; room = room; piece = piece; calls = fresh fail.items }) }
        ensures known { IfOk result
            (λ sink. (⟦<MemSink as Sink>⟧.seen sink).taken ≡ []) }
    {
        Ok(MemSink {
            written: Vec::with_capacity(alloc, room)?,
            room,
            piece,
            calls: Calls::new(fail),
        })
    }

    /// What was written.
    pub fn bytes(&self) -> &[u8]
        ensures { result.now ≡ self.now.written }
    {
        self.written.as_slice()
    }
}

impl Sink for MemSink {
    ghost seen = { λ sink. seen_of_sink sink };

    fn write(&mut self, piece: &[u8]) -> Result<usize, Failed>
        ensures writes { Writes piece.now (seen_of_sink self.old) (seen_of_sink self.new) result }
        ensures count { IfOk result (λ count. count ≡ write_count self.old piece.now) }
        ensures failed { IsErr result ↔ (fails_write self.old piece.now ≡ true) }
        ensures after { self.new ≡ after_write self.old piece.now }
    {
        let left = self.room - self.written.len();
        let failed = self.calls.fails_next() || (!piece.is_empty() && left == 0);
        self.calls.count(failed);
        if failed {
            return Err(Failed);
        }
        let count = self.piece.min(left).min(piece.len());
        self.written.extend_from_slice(&piece[..count]).unwrap();
        Ok(count)
    }
}
