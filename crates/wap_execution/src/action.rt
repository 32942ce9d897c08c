//! What an operation does.
use wap_value::{BinOp, UnOp};

/// What an operation does. Operations that differ only in an operator or in a literal share one.
#[derive(Clone, Copy)]
pub enum Action {
    /// Jumps forward.
    Jump,
    /// Jumps backward.
    JumpBack,
    /// Takes a value, and jumps forward where it is false or invalid as a Boolean.
    JumpUnless,
    /// Takes a value, and jumps backward where it is false or invalid as a Boolean.
    JumpBackUnless,
    /// Takes a value and jumps with it where it decides `&&` (by false) or `||` (by true), or is
    /// invalid.
    ShortCircuit(bool),
    /// Calls a function of the unit.
    CallLocal,
    /// Calls a function of a library.
    CallLibrary,
    /// Calls a function of another unit.
    CallExternal,
    /// Gives a variable's value.
    LoadVariable,
    /// Takes a value and stores it in a variable.
    StoreVariable,
    /// Stores in a variable what an operator makes of its value.
    ChangeVariable(UnOp),
    /// Takes a value, and stores in a variable what an operator makes of the variable's value and
    /// this.
    AssignVariable(BinOp),
    /// Gives a constant of the pool.
    LoadConstant,
    /// Gives an Integer.
    GiveInteger(i32),
    /// Gives a Boolean.
    GiveBoolean(bool),
    /// Gives the empty String.
    GiveEmpty,
    /// Gives invalid.
    GiveInvalid,
    /// Takes a value, and gives what an operator makes of it.
    Unary(UnOp),
    /// Takes two values, the right one on top, and gives what an operator makes of them.
    Binary(BinOp),
    /// Takes a value.
    Pop,
    /// Takes a value, and ends the function with it.
    Return,
    /// Ends the function with the empty String.
    ReturnEmpty,
    /// Does nothing.
    Pass,
}
