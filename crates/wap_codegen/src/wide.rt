//! How many bytes functions have where each operation has its longest spelling.
ghost use Rattle.std.specs.Prelude.{◌≡◌, ◌+◌, ◌*◌, ◌≤◌, length};
ghost use Rattle.wap_asm.specs.Placing.{wide};
ghost use Rattle.wap_meaning.specs.compiled.Savings.{operation_saves, form_saves, saved};
ghost use Rattle.wap_meaning.specs.compiled.Savings.{function_saves};

use crate::savings::statements_save;
use wap_asm::{Form, wide_bytes};
use wap_grammar::program::Function;
use wap_unit::OpName;

/// How many bytes an operation of its own saves an assignment that is a statement.
fn operation_saves(name: OpName) -> u64
    ensures saves { result ≡ operation_saves name }
    ensures few { result ≤ 6 }
{
    match name {
        OpName::AddAsg => 6,
        OpName::SubAsg => 6,
        _ => 0,
    }
}

/// The same of a form.
fn form_saves(form: Form) -> u64
    ensures saves { result ≡ form_saves form }
    ensures few { result ≤ 6 }
{
    match form {
        Form::Op(instr) => operation_saves(instr.name),
        Form::Jump(..) => 0,
        Form::Label(_) => 0,
    }
}

/// The same of forms.
fn saved_bytes(forms: &[Form]) -> u64
    ensures saves { result ≡ saved forms.now }
    ensures few { result ≤ length forms.now * 6 }
{
    let mut bytes = 0u64;
    for form in forms {
        bytes += form_saves(*form);
    }
    bytes
}

/// How many bytes the wide code of a function's forms has, in which each operation has its longest
/// spelling, no assignment an operation of its own, and no statement saves anything.
#[tactic(auto, using(crate::proofs::Bounds::wide_few, crate::proofs::Bounds::saved_few))]
pub(crate) fn wide_size(function: &Function, forms: &[Form]) -> u64
    requires few { function_saves function.now * 2 ≤ (wide forms.now + saved forms.now) * 3 }
    ensures { result ≡ wide forms.now + saved forms.now + function_saves function.now }
{
    let bytes = wide_bytes(forms) + saved_bytes(forms);
    bytes + statements_save(function.body.as_slice())
}
