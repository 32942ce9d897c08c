//! What operands of an instruction name, in words.
use crate::pieces::{Added, Shown, ShownBytes};
use std::fmt::Write;
use wap_base::Text;
use wap_unit::{After, Constant, Instr, LIBRARY, Operands, Row, Unit};

/// Adds the constant of an index as a literal.
fn add_constant(out: &mut String, unit: &Unit, index: u32) -> Added {
    Ok(match unit.constants.get(index as usize) {
        None => out.push_str("no constant")?,
        Some(Constant::Int8(number)) => write!(out, "{number}")?,
        Some(Constant::Int16(number)) => write!(out, "{number}")?,
        Some(Constant::Int32(number)) => write!(out, "{number}")?,
        Some(Constant::Float(_)) => out.push_str("a Float")?,
        Some(Constant::Utf8(text)) => write!(out, "'{}'", Shown(text.as_str()))?,
        Some(Constant::Empty) => out.push_str("''")?,
        Some(Constant::Coded(text)) => write!(out, "'{}'", ShownBytes(text.as_slice()))?,
    })
}

/// The first name of a function.
pub(crate) fn name_of_function(unit: &Unit, index: u32) -> Option<&Text> {
    let name = unit
        .names
        .as_slice()
        .iter()
        .find(|name| u32::from(name.0) == index);
    name.map(|name| &name.1)
}

/// Adds a function by its name, or as one that has none.
fn add_function(out: &mut String, unit: &Unit, index: u32) -> Added {
    Ok(match name_of_function(unit, index) {
        Some(name) => write!(out, "{}", Shown(name.as_str()))?,
        None if (index as usize) < unit.functions.len() => {
            out.push_str("a function without a name")?;
        }
        None => out.push_str("no function")?,
    })
}

/// Adds a function of a library by its names.
fn add_library(out: &mut String, library: u32, function: u32) -> Added {
    for row in &LIBRARY {
        if u32::from(row.0) == library && u32::from(row.1) == function {
            return Ok(write!(out, "{}.{}", row.3, row.4)?);
        }
    }
    Ok(out.push_str("no function of a library")?)
}

/// Adds where a jump goes to, by the place in the code.
fn add_target(out: &mut String, row: &Row, instr: &Instr, at: usize) -> Added {
    let distance = instr.a as usize;
    let target = match row.after {
        After::Forward | After::ForwardOrOn => instr.next.saturating_add(distance),
        After::Backward | After::BackwardOrOn => at.saturating_sub(distance),
        After::On | After::Pair | After::Leave => return Ok(()),
    };
    Ok(write!(out, "  to {target}")?)
}

/// Adds what the operands of an instruction at a place name, after two spaces, if they name
/// anything.
pub(crate) fn add_note(
    out: &mut String,
    unit: &Unit,
    row: &Row,
    instr: &Instr,
    at: usize,
) -> Added {
    match row.operands {
        Operands::Plain => return add_target(out, row, instr, at),
        Operands::Variable => return Ok(()),
        _ => out.push_str("  ")?,
    }
    match row.operands {
        Operands::Function => add_function(out, unit, instr.a),
        Operands::Library => add_library(out, instr.b, instr.a),
        Operands::Address => {
            add_constant(out, unit, instr.a)?;
            out.push_str("#")?;
            add_constant(out, unit, instr.b)
        }
        _ => add_constant(out, unit, instr.a),
    }
}
