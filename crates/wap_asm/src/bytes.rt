//! The bytes of forms that have places.
ghost use Rattle.std.specs.Prelude.{◌≡◌, ℕ, ◌+◌, ◌<◌, ◌≤◌, ◌++◌, length, slice_get, map, IfOk};
ghost use Rattle.std.specs.Prelude.{OnOk};
ghost use Rattle.wap_asm.specs.Spelling.{limit, low_part, slot_bytes, spelling};
ghost use Rattle.wap_asm.specs.Operands.{Holds};
ghost use Rattle.wap_asm.specs.declared.form.Form.{Form};
ghost use Rattle.wap_asm.specs.Placing.{instr_bytes, form_bytes, settled, wide, placed};
ghost use Rattle.wap_asm.specs.Placed.{ArePlaceable};
ghost use Rattle.wap_asm.specs.inside.Passes.{site_of, AreStarts, HasSpelling};

use crate::Form;
use crate::pass::{Layout, apart};
use crate::table::{operation_of, spelling_of};
use std::alloc::Global;
use wap_base::{Bytes, NoMemory};
use wap_unit::{OpName, Row, Slot};

/// What an operand adds to a code of `count` values.
fn low_part(count: u8, slot: Slot, n: u32) -> u8
    requires { n < limit count slot }
    ensures { result ≡ low_part slot n }
{
    match slot {
        Slot::Absent => 0,
        Slot::Low => n as u8,
        Slot::Byte => 0,
        Slot::Word => 0,
    }
}

/// Appends what an operand has after a code of `count` values.
fn add_operand(count: u8, slot: Slot, n: u32, code: &mut Bytes) -> Result<(), NoMemory>
    requires { n < limit count slot }
    ensures { OnOk result (code.new ≡ code.old ++ slot_bytes slot n) }
{
    match slot {
        Slot::Absent => Ok(()),
        Slot::Low => Ok(()),
        Slot::Byte => {
            code.push(n as u8)?;
            Ok(())
        }
        Slot::Word => {
            code.push((n / 256) as u8)?;
            code.push((n % 256) as u8)?;
            Ok(())
        }
    }
}

/// Appends what a row spells.
fn add_row(row: Row, a: u32, b: u32, c: u32, code: &mut Bytes) -> Result<(), NoMemory>
    requires room { Holds row a b c }
    requires code { row.first + row.count ≤ 256 }
    ensures { OnOk result (code.new ≡ code.old ++ spelling row a b c) }
{
    code.push(row.first + low_part(row.count, row.a, a))?;
    add_operand(row.count, row.a, a, code)?;
    add_operand(row.count, row.b, b, code)?;
    add_operand(row.count, row.c, c, code)?;
    Ok(())
}

/// Appends an operation with its operands.
fn add_instr(operation: OpName, a: u32, b: u32, c: u32, code: &mut Bytes) -> Result<(), NoMemory>
    requires { HasSpelling operation a b c }
    ensures { OnOk result (code.new ≡ code.old ++ instr_bytes operation a b c) }
{
    match spelling_of(operation, a, b, c) {
        Some(row) => add_row(row, a, b, c, code),
        None => Ok(()),
    }
}

/// Appends the form at an index.
fn add_form(forms: &[Form], layout: &Layout, i: usize, code: &mut Bytes) -> Result<(), NoMemory>
    requires placeable { ArePlaceable forms.now }
    requires few { wide forms.now ≤ 65535 }
    requires sites { layout.now.sites.items ≡ map (site_of forms.now) forms.now }
    requires starts { AreStarts (settled forms.now) layout.now.starts.items }
    requires within { i < length forms.now }
    ensures { OnOk result ((form : Form) → slice_get forms.now i ≡ Some form
        → code.new ≡ code.old ++ form_bytes forms.now (settled forms.now) i form) }
{
    match forms[i] {
        Form::Op(instr) => add_instr(operation_of(instr.name), instr.a, instr.b, instr.c, code),
        Form::Jump(name, _) => {
            let distance = apart(layout.starts.as_slice(), i, layout.sites[i].target);
            add_instr(operation_of(name), distance as u32, 0, 0, code)
        }
        Form::Label(_) => Ok(()),
    }
}

/// The bytes of the forms.
pub(crate) fn bytes_of(alloc: Global, forms: &[Form], layout: &Layout) -> Result<Bytes, NoMemory>
    requires placeable { ArePlaceable forms.now }
    requires few { wide forms.now ≤ 65535 }
    requires sites { layout.now.sites.items ≡ map (site_of forms.now) forms.now }
    requires starts { AreStarts (settled forms.now) layout.now.starts.items }
    ensures { IfOk result (λ code. code ≡ placed forms.now) }
{
    let mut code = Bytes::new(alloc);
    for i in 0..forms.len() {
        add_form(forms, layout, i, &mut code)?;
    }
    Ok(code)
}
