//! Forms that are added one after the other.
ghost use Rattle.std.specs.Prelude.{◌≡◌, ◌<◌, ◌++◌, [], ◌∷◌, length, slice_set, IfOk, OnOk};
ghost use Rattle.wap_asm.specs.declared.form.Form.TheVariants.{Op, Jump, Label};
ghost use Rattle.wap_meaning.specs.coding.Coded.{one, instr, plain, with_operand, label};
ghost use Rattle.wap_codegen.specs.emission.inside.Adding.{Extends};
ghost use Rattle.wap_codegen.specs.declared.emission.exits.TheConstants.{CONTINUE};

use crate::emission::exits::CONTINUE;
use wap_asm::Form;
use wap_base::NoMemory;
use wap_unit::{Instr, OpName};

/// A count as an operand or the number of a label, which have 32 bits: more things aren't in any
/// memory.
fn number(count: usize) -> Result<u32, NoMemory>
    ensures { IfOk result (λ number. number ≡ count) }
{
    match u32::try_from(count) {
        Ok(number) => Ok(number),
        Err(_) => Err(NoMemory),
    }
}

/// Adds a form.
pub(crate) fn add(forms: &mut Vec<Form>, form: Form) -> Result<(), NoMemory>
    ensures { OnOk result (forms.new.items ≡ forms.old.items ++ form ∷ []) }
{
    forms.push(form)?;
    Ok(())
}

/// Adds an operation with its operands.
pub(crate) fn add_op(
    forms: &mut Vec<Form>,
    name: OpName,
    a: usize,
    b: usize,
    c: usize,
) -> Result<(), NoMemory>
    ensures { OnOk result (Extends (one (λ exits at. Op (instr name a b c)))
        forms.old.items forms.new.items) }
{
    let instr = Instr {
        name,
        a: number(a)?,
        b: number(b)?,
        c: number(c)?,
        next: 0,
    };
    add(forms, Form::Op(instr))
}

/// Adds an operation without operands.
pub(crate) fn add_plain(forms: &mut Vec<Form>, name: OpName) -> Result<(), NoMemory>
    ensures { OnOk result (Extends (plain name) forms.old.items forms.new.items) }
{
    add_op(forms, name, 0, 0, 0)
}

/// Adds an operation with one operand.
pub(crate) fn add_with(forms: &mut Vec<Form>, name: OpName, a: usize) -> Result<(), NoMemory>
    ensures { OnOk result (Extends (with_operand name a) forms.old.items forms.new.items) }
{
    add_op(forms, name, a, 0, 0)
}

/// Adds a label, and answers its number.
pub(crate) fn add_label(forms: &mut Vec<Form>) -> Result<u32, NoMemory>
    ensures added { OnOk result (Extends label forms.old.items forms.new.items) }
    ensures number { IfOk result (λ label. label ≡ length forms.old.items) }
    ensures within { IfOk result (λ label. label < CONTINUE) }
{
    let label = number(forms.len())?;
    if label >= CONTINUE {
        return Err(NoMemory);
    }
    add(forms, Form::Label(label))?;
    Ok(label)
}

/// Adds a jump whose label isn't known yet, and answers its index.
pub(crate) fn open(forms: &mut Vec<Form>, name: OpName) -> Result<usize, NoMemory>
    ensures added { OnOk result (forms.new.items ≡ forms.old.items ++ Jump name 0 ∷ []) }
    ensures index { IfOk result (λ index. index ≡ length forms.old.items) }
{
    let index = forms.len();
    add(forms, Form::Jump(name, 0))?;
    Ok(index)
}

/// Gives a jump its label.
pub(crate) fn close(forms: &mut Vec<Form>, index: usize, name: OpName, label: u32)
    ensures { forms.new.items ≡ slice_set forms.old.items index (Jump name label) }
{
    if let Some(form) = forms.get_mut(index) {
        *form = Form::Jump(name, label);
    }
}
