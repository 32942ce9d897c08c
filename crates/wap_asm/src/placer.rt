//! Placing forms.
ghost use Rattle.std.specs.Prelude.{◌≡◌, ◌<◌, ◌≤◌, IfOk, IfErr};
ghost use Rattle.wap_asm.specs.declared.form.PlaceFault.TheVariants.{TooFar};
ghost use Rattle.wap_asm.specs.Placing.{wide, placed};
ghost use Rattle.wap_asm.specs.Placed.{ArePlaceable, start, IsPlaced, IsCause};

use crate::bytes::bytes_of;
use crate::pass::laid_out;
use crate::sizes::wide_bytes;
use crate::{Form, PlaceFault};
use std::alloc::Global;
use wap_base::Bytes;

/// How many bytes of code a function may have.
const MOST: u64 = 65535;

/// The code of forms, each in the shortest spelling that has room for its operands. A jump's
/// operand is how many bytes stand between it and its label, so lengthening one jump may lengthen
/// others.
pub fn place(alloc: Global, forms: &[Form]) -> Result<Bytes, PlaceFault>
    requires { ArePlaceable forms.now }
    ensures code { IfOk result (λ code. code ≡ placed forms.now) }
    ensures splits { IfOk result (λ code. IsPlaced code forms.now (start forms.now)) }
    // Too far exactly where the wide code is, and by its number of bytes.
    ensures far { 65535 < wide forms.now → result ≡ Err (TooFar (wide forms.now)) }
    ensures fault { IfErr result (IsCause forms.now) }
{
    let bytes = wide_bytes(forms);
    if bytes > MOST {
        return Err(PlaceFault::TooFar { bytes });
    }
    let layout = laid_out(alloc, forms, bytes as usize)?;
    let code = bytes_of(alloc, forms, &layout)?;
    Ok(code)
}
