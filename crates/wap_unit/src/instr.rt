//! Instructions of a function's code.
use crate::row::OpName;

/// An instruction. Operands that it doesn't have are 0.
#[derive(Clone, Copy)]
pub struct Instr {
    /// The name of its spelling, as its row has it.
    pub name: OpName,
    /// Its first operand.
    pub a: u32,
    /// Its second operand.
    pub b: u32,
    /// Its third operand.
    pub c: u32,
    /// The place of the first byte after it.
    pub next: usize,
}

/// Why there is no instruction.
#[derive(Clone, Copy, Debug, PartialEq, Eq)]
pub enum InstrFault {
    /// The byte is no code.
    Opcode,
    /// The operands end past the code.
    Operand,
}
