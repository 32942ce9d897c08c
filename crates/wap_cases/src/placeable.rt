//! Whether forms may be placed.
ghost use Rattle.std.specs.Prelude.{◌≡◌, ◌<◌, true, Some, IsSomeAnd, IsTrue, length, slice_get};
ghost use Rattle.wap_asm.specs.Spelling.{holds};
ghost use Rattle.wap_asm.specs.Spellings.{operation_of, longest};
ghost use Rattle.wap_asm.specs.Placed.{ArePlaceable, Leads};
ghost use Rattle.wap_asm.specs.declared.form.Form.{Form};
ghost use Rattle.wap_asm.specs.declared.form.Form.TheVariants.{Label};
ghost use Rattle.wap_cases.specs.Numbered.{MayStand};

use wap_asm::Form;
use wap_unit::{Instr, OpName};

/// Whether an instruction is `POP`, which has no operands.
#[tactic(auto, unfolding(wap_asm::specs::Spellings::operation_of, wap_asm::specs::Spellings::longest))]
fn is_pop(instr: Instr) -> bool
    ensures { result ≡ true → IsSomeAnd (longest (operation_of instr.name))
        (λ row. IsTrue (holds row instr.a instr.b instr.c)) }
{
    matches!(
        instr,
        Instr {
            name: OpName::Pop,
            a: 0,
            b: 0,
            c: 0,
            ..
        }
    )
}

/// Whether a jump of this name may lead from one index to another.
#[tactic(auto, unfolding(wap_asm::specs::Spellings::operation_of))]
fn leads(name: OpName, from: usize, to: usize) -> bool
    ensures { result ≡ true → Leads (operation_of name) from to }
{
    match name {
        OpName::JumpFw => from < to,
        OpName::TjumpFw => from < to,
        OpName::JumpBw => to < from,
        OpName::TjumpBw => to < from,
        _ => false,
    }
}

/// Whether a label stands at the index that is its number.
fn is_label(forms: &[Form], label: u32) -> bool
    ensures { result ≡ true → slice_get forms.now label ≡ Some (Label label) }
{
    match forms.get(label as usize) {
        Some(Form::Label(number)) => *number == label,
        _ => false,
    }
}

/// Whether a form may stand at an index.
fn may_stand(forms: &[Form], i: usize, form: Form) -> bool
    ensures { result ≡ true → MayStand forms.now i form }
{
    match form {
        Form::Op(instr) => is_pop(instr),
        Form::Jump(name, label) => { is_label(forms, label) && leads(name, i, label as usize) }
        Form::Label(label) => label as usize == i,
    }
}

/// Whether forms may be placed, where each label has its index as its number.
pub fn are_placeable(forms: &[Form]) -> bool
    ensures { result ≡ true → ArePlaceable forms.now }
{
    for i in 0..forms.len() {
        if !may_stand(forms, i, forms[i]) {
            return false;
        }
    }
    true
}
