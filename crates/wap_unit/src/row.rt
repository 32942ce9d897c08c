//! The instructions as rows of a table (WAP-193, section 10).

/// The names of instructions. A short form has a name of its own.
#[derive(Clone, Copy, PartialEq, Eq)]
pub enum OpName {
    JumpFwS,
    JumpFw,
    JumpFwW,
    JumpBwS,
    JumpBw,
    JumpBwW,
    TjumpFwS,
    TjumpFw,
    TjumpFwW,
    TjumpBw,
    TjumpBwW,
    CallS,
    Call,
    CallLibS,
    CallLib,
    CallLibW,
    CallUrl,
    CallUrlW,
    LoadVarS,
    LoadVar,
    StoreVarS,
    StoreVar,
    IncrVarS,
    IncrVar,
    DecrVar,
    LoadConstS,
    LoadConst,
    LoadConstW,
    Const0,
    Const1,
    ConstM1,
    ConstEs,
    ConstInvalid,
    ConstTrue,
    ConstFalse,
    Incr,
    Decr,
    AddAsg,
    SubAsg,
    Uminus,
    Add,
    Sub,
    Mul,
    Div,
    Idiv,
    Rem,
    BAnd,
    BOr,
    BXor,
    BNot,
    BLshift,
    BRsshift,
    BRszshift,
    Eq,
    Le,
    Lt,
    Ge,
    Gt,
    Ne,
    Not,
    Scand,
    Scor,
    Tobool,
    Pop,
    Typeof,
    Isvalid,
    Return,
    ReturnEs,
    Debug,
}

/// Where an operand stands.
#[derive(Clone, Copy)]
pub enum Slot {
    /// There is none.
    Absent,
    /// In the low bits of the code.
    Low,
    /// In the byte that follows.
    Byte,
    /// In the two bytes that follow, the high one first.
    Word,
}

/// What the operands are.
#[derive(Clone, Copy)]
pub enum Operands {
    /// A distance, or none.
    Plain,
    /// The index of a variable.
    Variable,
    /// The index of a constant.
    Constant,
    /// The index of a function of the unit.
    Function,
    /// The index of a function in its library, and the library's number.
    Library,
    /// The indexes of a URL and of a function's name, and how many arguments are handed over.
    Address,
}

/// How many values an instruction takes.
#[derive(Clone, Copy)]
pub enum Takes {
    /// So many.
    Values(u8),
    /// As many as what it calls has arguments.
    Arguments,
}

/// Where it goes on after an instruction.
#[derive(Clone, Copy)]
pub enum After {
    /// After it.
    On,
    /// As far after it as its operand says.
    Forward,
    /// As far before it as its operand says.
    Backward,
    /// Either of the first two.
    ForwardOrOn,
    /// Before it or after it.
    BackwardOrOn,
    /// In the jump that has to stand after it; the two are one instruction.
    Pair,
    /// Nowhere in this function.
    Leave,
}

/// One spelling of an operation: its codes are `count` from `first` on.
#[derive(Clone, Copy)]
pub struct Row {
    /// The least of its codes.
    pub first: u8,
    /// How many codes it has: more than one where their low bits hold an operand.
    pub count: u8,
    /// What it does, however it is spelled.
    pub operation: OpName,
    /// The name of this spelling.
    pub name: OpName,
    /// Where the first operand stands.
    pub a: Slot,
    /// Where the second stands.
    pub b: Slot,
    /// Where the third stands.
    pub c: Slot,
    /// What its operands are.
    pub operands: Operands,
    /// How many values it takes.
    pub takes: Takes,
    /// How many values it gives. A pair gives none where it goes on, and one where it jumps.
    pub gives: u8,
    /// Where it goes on.
    pub after: After,
}

macro_rules! row {
    ($first:literal, $count:literal, $operation:ident, $name:ident, $a:ident, $b:ident, $c:ident,
        $operands:ident, $takes:expr, $gives:literal, $after:ident) => {
        Row {
            first: $first,
            count: $count,
            operation: OpName::$operation,
            name: OpName::$name,
            a: Slot::$a,
            b: Slot::$b,
            c: Slot::$c,
            operands: Operands::$operands,
            takes: $takes,
            gives: $gives,
            after: After::$after,
        }
    };
}

use Takes::{Arguments, Values};

/// Each row of the table, an operation's shortest first.
pub static ROWS: [Row; 69] = [
    row! { 0x80, 32, JumpFw, JumpFwS, Low, Absent, Absent, Plain, Values(0), 0, Forward },
    row! { 0x01, 1, JumpFw, JumpFw, Byte, Absent, Absent, Plain, Values(0), 0, Forward },
    row! { 0x02, 1, JumpFw, JumpFwW, Word, Absent, Absent, Plain, Values(0), 0, Forward },
    row! { 0xA0, 32, JumpBw, JumpBwS, Low, Absent, Absent, Plain, Values(0), 0, Backward },
    row! { 0x03, 1, JumpBw, JumpBw, Byte, Absent, Absent, Plain, Values(0), 0, Backward },
    row! { 0x04, 1, JumpBw, JumpBwW, Word, Absent, Absent, Plain, Values(0), 0, Backward },
    row! { 0xC0, 32, TjumpFw, TjumpFwS, Low, Absent, Absent, Plain, Values(1), 0, ForwardOrOn },
    row! { 0x05, 1, TjumpFw, TjumpFw, Byte, Absent, Absent, Plain, Values(1), 0, ForwardOrOn },
    row! { 0x06, 1, TjumpFw, TjumpFwW, Word, Absent, Absent, Plain, Values(1), 0, ForwardOrOn },
    row! { 0x07, 1, TjumpBw, TjumpBw, Byte, Absent, Absent, Plain, Values(1), 0, BackwardOrOn },
    row! { 0x08, 1, TjumpBw, TjumpBwW, Word, Absent, Absent, Plain, Values(1), 0, BackwardOrOn },
    row! { 0x60, 8, Call, CallS, Low, Absent, Absent, Function, Arguments, 1, On },
    row! { 0x09, 1, Call, Call, Byte, Absent, Absent, Function, Arguments, 1, On },
    row! { 0x68, 8, CallLib, CallLibS, Low, Byte, Absent, Library, Arguments, 1, On },
    row! { 0x0A, 1, CallLib, CallLib, Byte, Byte, Absent, Library, Arguments, 1, On },
    row! { 0x0B, 1, CallLib, CallLibW, Byte, Word, Absent, Library, Arguments, 1, On },
    row! { 0x0C, 1, CallUrl, CallUrl, Byte, Byte, Byte, Address, Arguments, 1, On },
    row! { 0x0D, 1, CallUrl, CallUrlW, Word, Word, Byte, Address, Arguments, 1, On },
    row! { 0xE0, 32, LoadVar, LoadVarS, Low, Absent, Absent, Variable, Values(0), 1, On },
    row! { 0x0E, 1, LoadVar, LoadVar, Byte, Absent, Absent, Variable, Values(0), 1, On },
    row! { 0x40, 16, StoreVar, StoreVarS, Low, Absent, Absent, Variable, Values(1), 0, On },
    row! { 0x0F, 1, StoreVar, StoreVar, Byte, Absent, Absent, Variable, Values(1), 0, On },
    row! { 0x70, 8, IncrVar, IncrVarS, Low, Absent, Absent, Variable, Values(0), 0, On },
    row! { 0x10, 1, IncrVar, IncrVar, Byte, Absent, Absent, Variable, Values(0), 0, On },
    row! { 0x11, 1, DecrVar, DecrVar, Byte, Absent, Absent, Variable, Values(0), 0, On },
    row! { 0x50, 16, LoadConst, LoadConstS, Low, Absent, Absent, Constant, Values(0), 1, On },
    row! { 0x12, 1, LoadConst, LoadConst, Byte, Absent, Absent, Constant, Values(0), 1, On },
    row! { 0x13, 1, LoadConst, LoadConstW, Word, Absent, Absent, Constant, Values(0), 1, On },
    row! { 0x14, 1, Const0, Const0, Absent, Absent, Absent, Plain, Values(0), 1, On },
    row! { 0x15, 1, Const1, Const1, Absent, Absent, Absent, Plain, Values(0), 1, On },
    row! { 0x16, 1, ConstM1, ConstM1, Absent, Absent, Absent, Plain, Values(0), 1, On },
    row! { 0x17, 1, ConstEs, ConstEs, Absent, Absent, Absent, Plain, Values(0), 1, On },
    row! { 0x18, 1, ConstInvalid, ConstInvalid, Absent, Absent, Absent, Plain, Values(0), 1, On },
    row! { 0x19, 1, ConstTrue, ConstTrue, Absent, Absent, Absent, Plain, Values(0), 1, On },
    row! { 0x1A, 1, ConstFalse, ConstFalse, Absent, Absent, Absent, Plain, Values(0), 1, On },
    row! { 0x1B, 1, Incr, Incr, Absent, Absent, Absent, Plain, Values(1), 1, On },
    row! { 0x1C, 1, Decr, Decr, Absent, Absent, Absent, Plain, Values(1), 1, On },
    row! { 0x1D, 1, AddAsg, AddAsg, Byte, Absent, Absent, Variable, Values(1), 0, On },
    row! { 0x1E, 1, SubAsg, SubAsg, Byte, Absent, Absent, Variable, Values(1), 0, On },
    row! { 0x1F, 1, Uminus, Uminus, Absent, Absent, Absent, Plain, Values(1), 1, On },
    row! { 0x20, 1, Add, Add, Absent, Absent, Absent, Plain, Values(2), 1, On },
    row! { 0x21, 1, Sub, Sub, Absent, Absent, Absent, Plain, Values(2), 1, On },
    row! { 0x22, 1, Mul, Mul, Absent, Absent, Absent, Plain, Values(2), 1, On },
    row! { 0x23, 1, Div, Div, Absent, Absent, Absent, Plain, Values(2), 1, On },
    row! { 0x24, 1, Idiv, Idiv, Absent, Absent, Absent, Plain, Values(2), 1, On },
    row! { 0x25, 1, Rem, Rem, Absent, Absent, Absent, Plain, Values(2), 1, On },
    row! { 0x26, 1, BAnd, BAnd, Absent, Absent, Absent, Plain, Values(2), 1, On },
    row! { 0x27, 1, BOr, BOr, Absent, Absent, Absent, Plain, Values(2), 1, On },
    row! { 0x28, 1, BXor, BXor, Absent, Absent, Absent, Plain, Values(2), 1, On },
    row! { 0x29, 1, BNot, BNot, Absent, Absent, Absent, Plain, Values(1), 1, On },
    row! { 0x2A, 1, BLshift, BLshift, Absent, Absent, Absent, Plain, Values(2), 1, On },
    row! { 0x2B, 1, BRsshift, BRsshift, Absent, Absent, Absent, Plain, Values(2), 1, On },
    row! { 0x2C, 1, BRszshift, BRszshift, Absent, Absent, Absent, Plain, Values(2), 1, On },
    row! { 0x2D, 1, Eq, Eq, Absent, Absent, Absent, Plain, Values(2), 1, On },
    row! { 0x2E, 1, Le, Le, Absent, Absent, Absent, Plain, Values(2), 1, On },
    row! { 0x2F, 1, Lt, Lt, Absent, Absent, Absent, Plain, Values(2), 1, On },
    row! { 0x30, 1, Ge, Ge, Absent, Absent, Absent, Plain, Values(2), 1, On },
    row! { 0x31, 1, Gt, Gt, Absent, Absent, Absent, Plain, Values(2), 1, On },
    row! { 0x32, 1, Ne, Ne, Absent, Absent, Absent, Plain, Values(2), 1, On },
    row! { 0x33, 1, Not, Not, Absent, Absent, Absent, Plain, Values(1), 1, On },
    row! { 0x34, 1, Scand, Scand, Absent, Absent, Absent, Plain, Values(1), 0, Pair },
    row! { 0x35, 1, Scor, Scor, Absent, Absent, Absent, Plain, Values(1), 0, Pair },
    row! { 0x36, 1, Tobool, Tobool, Absent, Absent, Absent, Plain, Values(1), 1, On },
    row! { 0x37, 1, Pop, Pop, Absent, Absent, Absent, Plain, Values(1), 0, On },
    row! { 0x38, 1, Typeof, Typeof, Absent, Absent, Absent, Plain, Values(1), 1, On },
    row! { 0x39, 1, Isvalid, Isvalid, Absent, Absent, Absent, Plain, Values(1), 1, On },
    row! { 0x3A, 1, Return, Return, Absent, Absent, Absent, Plain, Values(1), 0, Leave },
    row! { 0x3B, 1, ReturnEs, ReturnEs, Absent, Absent, Absent, Plain, Values(0), 0, Leave },
    row! { 0x3C, 1, Debug, Debug, Absent, Absent, Absent, Plain, Values(0), 0, On },
];
