//! How many bytes forms have.
ghost use Rattle.std.specs.Prelude.{◌≡◌, ◌+◌, ◌*◌, ◌≤◌, ◌<◌, ◌^◌, length, sum_by};
ghost use Rattle.wap_asm.specs.Placing.{wide_size, wide};

use crate::Form;
use crate::table::{longest, operation_of, row_size};

/// How many bytes a form has in the longest spelling of its operation.
#[tactic(auto, unfolding(crate::specs::Placing::wide_size))]
fn wide_size(form: Form) -> usize
    ensures size { result ≡ wide_size form }
    ensures few { result ≤ 7 }
{
    match form {
        Form::Op(instr) => row_size(longest(operation_of(instr.name))),
        Form::Jump(name, _) => row_size(longest(operation_of(name))),
        Form::Label(_) => 0,
    }
}

/// How many bytes the forms have in the longest spellings of their operations.
#[tactic(auto, unfolding(crate::specs::Placing::wide))]
pub fn wide_bytes(forms: &[Form]) -> u64
    ensures { result ≡ wide forms.now }
{
    let mut bytes = 0u64;
    for form in forms {
        bytes += wide_size(*form) as u64;
    }
    bytes
}
