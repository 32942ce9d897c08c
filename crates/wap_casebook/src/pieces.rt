//! Bytes that have a name, for lines that need them often.
use crate::spelling::spelled_bytes;
use crate::{CaseFault, split_word};
use std::alloc::Global;
use wap_base::Bytes;

/// Bytes that have a name.
#[derive(Drop)]
struct Piece {
    name: Bytes,
    bytes: Bytes,
}

/// Bytes by names. Where a name is given twice, the later bytes count.
#[derive(Drop)]
pub struct Pieces {
    named: Vec<Piece>,
}

impl Pieces {
    /// No bytes yet.
    pub fn new(alloc: Global) -> Pieces {
        Pieces {
            named: Vec::new(alloc),
        }
    }

    /// The bytes of a name.
    pub fn find(&self, name: &[u8]) -> Option<&[u8]> {
        let mut found = None;
        for piece in &self.named {
            if piece.name.as_slice() == name {
                found = Some(piece.bytes.as_slice());
            }
        }
        found
    }

    /// Gives a name to bytes, by a line `NAME BYTES`.
    pub fn define(&mut self, alloc: Global, line: &[u8]) -> Result<(), CaseFault> {
        let (name, value) = split_word(line);
        let bytes = spelled_bytes(alloc, self, value, None)?;
        let name = Bytes::of(alloc, name)?;
        self.named.push(Piece { name, bytes })?;
        Ok(())
    }
}
