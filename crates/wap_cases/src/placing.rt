//! Calls that place forms.
use crate::forms::forms;
use crate::placeable::are_placeable;
use wap_asm::{Form, place};
use wap_base::Bytes;
use wap_casebook::{Call, CaseFault};

/// The code of forms, or nothing where why they aren't placed was given.
fn code_of(call: &mut Call, forms: &[Form]) -> Option<Bytes> {
    if !are_placeable(forms) {
        call.fail(CaseFault::Argument);
        return None;
    }
    match place(call.alloc(), forms) {
        Ok(code) => Some(code),
        Err(fault) => {
            call.give_named(&fault);
            None
        }
    }
}

/// Gives how many forms there are.
pub fn count_forms(call: &mut Call) -> Result<(), CaseFault> {
    let forms = forms(call)?;
    if !are_placeable(forms.as_slice()) {
        return Err(CaseFault::Argument);
    }
    call.give_count(forms.len());
    Ok(())
}

/// Gives the code of forms.
pub fn show(call: &mut Call) -> Result<(), CaseFault> {
    let forms = forms(call)?;
    if let Some(code) = code_of(call, forms.as_slice()) {
        call.give_bytes(code.as_slice());
    }
    Ok(())
}

/// Gives how many bytes the code of forms has.
pub fn measure(call: &mut Call) -> Result<(), CaseFault> {
    let forms = forms(call)?;
    if let Some(code) = code_of(call, forms.as_slice()) {
        call.give_count(code.len());
    }
    Ok(())
}
