//! Why a unit is refused or may not be run, in words.
use wap_unit::UnitFault;
use wap_verify::VerifyFault;

/// The place of a fault of bytes, and what is wrong there.
pub(crate) fn unit_words(fault: UnitFault) -> (usize, &'static str) {
    match fault {
        UnitFault::Version { at } => (at, "The version is 00 to 0F, for 1.0 to 1.15."),
        UnitFault::Short { at } => (at, "The unit ends too early: more has to follow."),
        UnitFault::Number { at } => (at, "A number begins here that is past 4294967295."),
        UnitFault::Size { at } => (
            at,
            "The size that the unit tells isn't the number of the bytes that follow it.",
        ),
        UnitFault::ConstantKind { at } => (at, "A constant begins with 00 to 06."),
        UnitFault::PragmaKind { at } => (at, "A pragma begins with 00 to 03."),
        UnitFault::Text { at } => (at, "The string or name is no text in its character set."),
        UnitFault::Charset { at } => (
            at,
            "The unit's strings are in another character set than US-ASCII, ISO-8859-1 and UTF-8.",
        ),
        UnitFault::NoFunction { at } => (at, "A unit has to have a function."),
        UnitFault::NameIndex { at } => (at, "The name is of a function that isn't there."),
        UnitFault::NoMemory => (0, ""),
    }
}

/// The function and the place of a fault in its code, where it has them.
pub(crate) fn place_of(fault: VerifyFault) -> Option<(u8, usize)> {
    match fault {
        VerifyFault::Opcode { function, at }
        | VerifyFault::Operand { function, at }
        | VerifyFault::Variable { function, at }
        | VerifyFault::Constant { function, at }
        | VerifyFault::Function { function, at }
        | VerifyFault::Library { function, at }
        | VerifyFault::LoneShort { function, at }
        | VerifyFault::Target { function, at }
        | VerifyFault::Underflow { function, at }
        | VerifyFault::Depths { function, at, .. } => Some((function, at)),
        VerifyFault::Pragma { .. } | VerifyFault::NoMemory => None,
    }
}

/// What is wrong where a unit may not be run.
pub(crate) fn verify_words(fault: VerifyFault) -> &'static str {
    match fault {
        VerifyFault::Pragma { .. } => "The pragma names a constant that is no string.",
        VerifyFault::Opcode { .. } => "No instruction begins with this byte.",
        VerifyFault::Operand { .. } => "The operands of the instruction end behind the code.",
        VerifyFault::Variable { .. } => "The function has no variable of this number.",
        VerifyFault::Constant { .. } => {
            "There is no constant of this number, or it is no string where one is wanted."
        }
        VerifyFault::Function { .. } => "The unit has no function of this number.",
        VerifyFault::Library { .. } => "The libraries have no such function.",
        VerifyFault::LoneShort { .. } => {
            "A conditional jump forward has to follow right behind SCAND or SCOR."
        }
        VerifyFault::Target { .. } => {
            "It jumps to where no instruction begins. SCAND and SCOR are one with the jump behind."
        }
        VerifyFault::Underflow { .. } => "It takes more values than there are here.",
        VerifyFault::Depths { .. } => "On two ways to here there are different numbers of values:",
        VerifyFault::NoMemory => "",
    }
}
