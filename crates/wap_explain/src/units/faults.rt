//! Why a unit is refused or may not be run, with a mark at the place.
use crate::documents::add_bytes_around;
use crate::pieces::{Added, Shown};
use crate::units::listing::{Mark, add_unit};
use crate::units::notes::name_of_function;
use crate::units::words::{place_of, unit_words, verify_words};
use std::alloc::Global;
use std::fmt::Write;
use wap_unit::{Unit, UnitFault};
use wap_verify::VerifyFault;

/// Adds why bytes are no unit, and those around the place.
pub(crate) fn add_unit_fault(out: &mut String, bytes: &[u8], fault: UnitFault) -> Added {
    let (at, words) = unit_words(fault);
    write!(out, "at byte {at}\n{words}\n\n")?;
    add_bytes_around(out, bytes, at)
}

/// Adds a function and a place in its code.
fn add_place(out: &mut String, unit: &Unit, function: u8, at: usize) -> Added {
    write!(out, "at function {function}")?;
    if let Some(name) = name_of_function(unit, u32::from(function)) {
        write!(out, " ({})", Shown(name.as_str()))?;
    }
    Ok(write!(out, ", byte {at} of its code\n")?)
}

/// Adds why a unit may not be run, and its listing around the place.
pub(crate) fn add_verify_fault(
    alloc: Global,
    out: &mut String,
    unit: &Unit,
    fault: VerifyFault,
) -> Added {
    let mut mark = Mark {
        functions: 0,
        beginning: String::new(alloc),
    };
    if let Some((function, at)) = place_of(fault) {
        add_place(out, unit, function, at)?;
        mark.functions = usize::from(function) + 1;
        write!(mark.beginning, "{at} ")?;
    }
    out.push_str(verify_words(fault))?;
    match fault {
        VerifyFault::Depths { found, other, .. } => write!(out, " {found} and {other}.")?,
        VerifyFault::Pragma { index } => write!(mark.beginning, "pragma {index} ")?,
        _ => {}
    }
    out.push_str("\n\n")?;
    add_unit(alloc, out, unit, Some(&mark))
}
