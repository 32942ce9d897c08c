//! Printing why a compiled unit is refused, and why it may not be run.
ghost use Rattle.wap_devices.specs.Sinks.{Puts};
ghost use Rattle.wap_pages.specs.Printing.{unit_text, verify_text};

use crate::printing::print_place;
use wap_devices::{Failed, Sink, print_fault, print_name, print_one};
use wap_unit::UnitFault;
use wap_verify::VerifyFault;

pub(crate) fn print_unit_fault<O: Sink>(out: &mut O, fault: UnitFault) -> Result<(), Failed>
    ensures { Puts (unit_text fault) (O.seen out.old) (O.seen out.new) result }
{
    match fault {
        UnitFault::Version { at } => print_one(out, "Version", at),
        UnitFault::Short { at } => print_one(out, "Short", at),
        UnitFault::Number { at } => print_one(out, "Number", at),
        UnitFault::Size { at } => print_one(out, "Size", at),
        UnitFault::ConstantKind { at } => print_one(out, "ConstantKind", at),
        UnitFault::PragmaKind { at } => print_one(out, "PragmaKind", at),
        UnitFault::Text { at } => print_one(out, "Text", at),
        UnitFault::Charset { at } => print_one(out, "Charset", at),
        UnitFault::NoFunction { at } => print_one(out, "NoFunction", at),
        UnitFault::NameIndex { at } => print_one(out, "NameIndex", at),
        UnitFault::NoMemory => print_name(out, "NoMemory"),
    }
}

pub(crate) fn print_verify_fault<O: Sink>(out: &mut O, fault: VerifyFault) -> Result<(), Failed>
    ensures { Puts (verify_text fault) (O.seen out.old) (O.seen out.new) result }
{
    match fault {
        VerifyFault::Pragma { index } => print_one(out, "Pragma", index as usize),
        VerifyFault::Opcode { function, at } => print_place(out, "Opcode", function, at),
        VerifyFault::Operand { function, at } => print_place(out, "Operand", function, at),
        VerifyFault::Variable { function, at } => print_place(out, "Variable", function, at),
        VerifyFault::Constant { function, at } => print_place(out, "Constant", function, at),
        VerifyFault::Function { function, at } => print_place(out, "Function", function, at),
        VerifyFault::Library { function, at } => print_place(out, "Library", function, at),
        VerifyFault::LoneShort { function, at } => print_place(out, "LoneShort", function, at),
        VerifyFault::Target { function, at } => print_place(out, "Target", function, at),
        VerifyFault::Underflow { function, at } => print_place(out, "Underflow", function, at),
        VerifyFault::Depths {
            function,
            at,
            found,
            other,
        } => print_fault(
            out,
            b"Depths",
            &[function as usize, at, found as usize, other as usize],
        ),
        VerifyFault::NoMemory => print_name(out, "NoMemory"),
    }
}
