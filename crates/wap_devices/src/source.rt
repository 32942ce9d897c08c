//! Where key lines come from.
ghost use Rattle.std.specs.Prelude.{◌≡◌, ◌<◌, ◌≤◌, ◌++◌, length, take, true, ◌↔◌};
ghost use Rattle.std.specs.Prelude.{[], IfOk, IsErr};
ghost use Rattle.wap_devices.specs.Sources.{SourceSeen, Left, Reads};
ghost use Rattle.wap_devices.specs.Fakes.{SourceState, fresh, fails_next, seen_of_source};
ghost use Rattle.wap_devices.specs.Fakes.{read_count, after_read};

use crate::calls::Calls;
use crate::{Count, Failed};
use std::marker::Model;
use wap_base::Bytes;

/// A source of bytes that may fail.
pub trait Source {
    /// What a contract sees of it.
    ghost seen: { Self → SourceSeen };

    /// Fills the beginning of the buffer with the next bytes, and answers their number; 0 means the
    /// end.
    fn read(&mut self, buffer: &mut [u8]) -> Result<usize, Failed>
        requires { 0 < length buffer.old }
        ensures { Reads buffer.old buffer.new (seen self.old) (seen self.new) result };
}

/// A source in memory.
#[derive(Drop)]
pub struct MemSource {
    bytes: Bytes,
    at: usize,
    piece: usize,
    calls: Calls,
    ends: Count,
}

impl Model for MemSource {
    ghost use Rattle.std.specs.Prelude.{◌≤◌, length, take, drop};
    ghost use Rattle.wap_devices.specs.Fakes.{SourceState};

    ghost Value = { SourceState };

    ghost view = { λ source. record {
      given = take source.at source.bytes;
      left = drop source.at source.bytes;
      piece = source.piece;
      calls = source.calls;
      ends = source.ends;
    } };

    ghost invariant = { λ source. (source.at ≤ length source.bytes) × (1 ≤ source.piece) };
}

impl MemSource {
    /// A source of these bytes, of which a call moves at most `piece`. `fail` has the numbers,
    /// from 1, of the calls that fail.
    pub fn new(bytes: Bytes, piece: usize, fail: Vec<u64>) -> MemSource
        requires { 1 ≤ piece }
        ensures holds { result ≡ record {
          given = [];
          left = bytes;
          piece = piece;
          calls = fresh fail.items;
          ends = 0;
        } }
        ensures known { (⟦<MemSource as Source>⟧.seen result).coming ≡ Left bytes }
    {
        MemSource {
            bytes,
            at: 0,
            piece,
            calls: Calls::new(fail),
            ends: Count::new(),
        }
    }
}

impl Source for MemSource {
    ghost seen = { λ source. seen_of_source source };

    fn read(&mut self, buffer: &mut [u8]) -> Result<usize, Failed>
        requires { 0 < length buffer.old }
        ensures reads { Reads buffer.old buffer.new (seen_of_source self.old)
            (seen_of_source self.new) result }
        ensures count { IfOk result (λ count. count ≡ read_count self.old (length buffer.old)) }
        ensures bytes { IfOk result
            (λ count. self.old.left ≡ take count buffer.new ++ self.new.left) }
        ensures failed { IsErr result ↔ (fails_next self.old.calls ≡ true) }
        ensures after { self.new ≡ after_read self.old (length buffer.old) }
    {
        let failed = self.calls.fails_next();
        self.calls.count(failed);
        if failed {
            return Err(Failed);
        }
        let (_, left) = self.bytes.as_slice().split_at(self.at);
        let count = self.piece.min(buffer.len()).min(left.len());
        buffer[..count].copy_from_slice(&left[..count]);
        self.at += count;
        self.ends.add_if(count == 0);
        Ok(count)
    }
}
