//! The values of scripts and what the operators make of them (WAP-193).
//!
//! A value is an Integer of 32 bits, a Boolean, a String or invalid. An operator converts its
//! operands first, and a conversion that isn't there gives invalid, never an error. An operation
//! has two errors: a String that is too long to be kept, and out of memory.
#![tactic(auto)]

mod arithmetic;
mod comparison;
mod concatenation;
mod conversion;
mod fault;
mod one_operand;
mod operator;
mod two_operands;
mod value;

pub use conversion::{to_bool, to_int, to_str};
pub use fault::ValueFault;
pub use one_operand::unary;
pub use operator::{BinOp, UnOp};
pub use two_operands::{binary, combine};
pub use value::Value;
