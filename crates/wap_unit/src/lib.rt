//! Compiled units: their types and tables, and their bytes, read and written.
#![tactic(auto)]

mod charset;
mod constants;
mod fault;
mod front;
mod functions;
mod instr;
mod kind;
mod laws;
mod library;
mod pragmas;
mod reading;
mod row;
mod unit;
mod writing;

pub use fault::UnitFault;
pub use instr::{Instr, InstrFault};
pub use laws::{
    no_bytes_have_two_faults, no_bytes_have_two_units, no_unit_has_a_fault,
    what_is_no_unit_has_a_fault,
};
pub use library::LIBRARY;
pub use reading::decode;
pub use row::{After, OpName, Operands, ROWS, Row, Slot, Takes};
pub use unit::{Code, Constant, Pragma, Unit};
pub use writing::encode;
