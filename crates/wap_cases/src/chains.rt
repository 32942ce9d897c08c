//! Forms in a row: instructions of one byte, and jumps each over so many of the others, which stand
//! alone in their list.
use std::alloc::AllocError;
use wap_asm::Form;
use wap_unit::{Instr, OpName};

/// The instruction of one byte.
const POP: Form = Form::Op(Instr {
    name: OpName::Pop,
    a: 0,
    b: 0,
    c: 0,
    next: 0,
});

/// Adds so many instructions of one byte.
pub fn add_pops(forms: &mut Vec<Form>, count: u32) -> Result<(), AllocError> {
    for _ in 0..count {
        forms.push(POP)?;
    }
    Ok(())
}

/// Adds a label, whose number is its place.
pub fn add_label(forms: &mut Vec<Form>) -> Result<(), AllocError> {
    let place = u32::try_from(forms.len()).unwrap_or(u32::MAX);
    forms.push(Form::Label(place))?;
    Ok(())
}

/// Adds so many labels.
fn add_labels(forms: &mut Vec<Form>, count: u32) -> Result<(), AllocError> {
    for _ in 0..count {
        add_label(forms)?;
    }
    Ok(())
}

/// Twice a number and another.
fn twice_and(number: u32, other: u32) -> u32 {
    number.saturating_mul(2).saturating_add(other)
}

/// Adds jumps forward, each over so many that follow it. Those that fewer follow are over so many
/// instructions too.
fn add_onward(
    forms: &mut Vec<Form>,
    name: OpName,
    count: u32,
    span: u32,
    last: u32,
) -> Result<(), AllocError> {
    // so many have all that they are over, and each label of theirs stands before a jump
    let whole = count.saturating_sub(span);
    for jump in 0..count {
        if jump > span {
            add_label(forms)?;
        }
        let place = if jump < whole {
            twice_and(jump, span.saturating_add(1))
        } else {
            count.saturating_add(jump).saturating_add(last)
        };
        forms.push(Form::Jump(name, place))?;
    }
    add_labels(forms, if whole > 0 { 1 } else { 0 })?;
    add_pops(forms, last)?;
    add_labels(forms, count - whole)
}

/// Adds jumps backward, each over so many that stand before it. Those that fewer stand before are
/// over so many instructions too.
fn add_backward(
    forms: &mut Vec<Form>,
    name: OpName,
    count: u32,
    span: u32,
    first: u32,
) -> Result<(), AllocError> {
    add_labels(forms, if span < count { span } else { count })?;
    add_pops(forms, first)?;
    for jump in 0..count {
        if jump.saturating_add(span) < count {
            add_label(forms)?;
        }
        let place = if jump < span {
            jump
        } else {
            twice_and(jump - span, span.saturating_add(first))
        };
        forms.push(Form::Jump(name, place))?;
    }
    Ok(())
}

/// Adds so many jumps of this name, each over so many of the others, or at the end of these over
/// so many instructions of one byte besides.
pub fn add_chain(
    forms: &mut Vec<Form>,
    name: OpName,
    count: u32,
    span: u32,
    last: u32,
) -> Result<(), AllocError> {
    match name {
        OpName::JumpFw | OpName::TjumpFw => add_onward(forms, name, count, span, last),
        _ => add_backward(forms, name, count, span, last),
    }
}
