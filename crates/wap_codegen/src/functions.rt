//! The code of functions.
ghost use Rattle.std.specs.Prelude.{◌≡◌, ◌+◌, ◌*◌, ◌≤◌, length, map, IfOk, IfErr};
ghost use Rattle.std.specs.List.{All};
ghost use Rattle.wap_asm.specs.Placing.{wide, placed};
ghost use Rattle.wap_asm.specs.Placed.{ArePlaceable};
ghost use Rattle.wap_meaning.specs.compiled.Units.{compiled_function};
ghost use Rattle.wap_meaning.specs.compiled.Wide.{function_wide};
ghost use Rattle.wap_meaning.specs.compiled.Savings.{saved, function_saves};
ghost use Rattle.wap_meaning.specs.compiled.Accepted.{most_code};
ghost use Rattle.wap_codegen.specs.inside.Units.{AreNumbersOf, CanBeMade};
ghost use Rattle.wap_codegen.specs.inside.Units.{IsFormsCause, IsFunctionCause, IsFunctionsCause};

use crate::CompileFault;
use crate::emission::forms_of;
use crate::pool::Numbering;
use crate::wide::wide_size;
use std::alloc::Global;
use wap_asm::{Form, PlaceFault, place};
use wap_base::{Bytes, Rows};
use wap_grammar::program::{Function, Program};
use wap_unit::Code;

/// How many bytes of wide code a function may have.
const CODE_LIMIT: u64 = 65535;

/// The code of the forms of a function, unless their wide code is too long.
fn bytes_of(
    alloc: Global,
    index: u8,
    function: &Function,
    forms: &[Form],
) -> Result<Bytes, CompileFault>
    requires placeable { ArePlaceable forms.now }
    requires few { function_saves function.now * 2 ≤ (wide forms.now + saved forms.now) * 3 }
    ensures found { IfOk result (λ code. code ≡ placed forms.now) }
    ensures short { IfOk result (λ code.
        wide forms.now + saved forms.now + function_saves function.now ≤ most_code) }
    ensures fault { IfErr result (IsFormsCause index function.now forms.now) }
{
    let wide = wide_size(function, forms);
    if wide > CODE_LIMIT {
        return Err(CompileFault::CodeTooLong {
            function: index,
            wide,
        });
    }
    match place(alloc, forms) {
        Ok(code) => Ok(code),
        Err(PlaceFault::TooFar { .. }) => unreachable!(),
        Err(PlaceFault::NoMemory) => Err(CompileFault::NoMemory),
    }
}

/// The code of a function.
fn code_of(
    alloc: Global,
    program: &Program,
    numbering: &mut Numbering,
    index: u8,
    function: &Function,
) -> Result<Code, CompileFault>
    requires numbers { AreNumbersOf program.now numbering.now }
    requires made { CanBeMade program.now function.now }
    ensures kept { AreNumbersOf program.now numbering.new }
    ensures found { IfOk result (λ code. code ≡ compiled_function program.now function.now) }
    ensures short { IfOk result (λ code. function_wide function.now ≤ most_code) }
    ensures fault { IfErr result (IsFunctionCause index function.now) }
{
    numbering.enter(alloc, function)?;
    let forms = forms_of(alloc, numbering, function)?;
    let code = bytes_of(alloc, index, function, forms.as_slice())?;
    let args = function.params.len();
    let locals = numbering.variable_count() - args;
    Ok(Code {
        args: args as u8,
        locals: locals as u8,
        code,
    })
}

/// The code of the functions of a program.
pub(crate) fn codes_of(
    alloc: Global,
    program: &Program,
    numbering: &mut Numbering,
) -> Result<Rows<Code>, CompileFault>
    requires numbers { AreNumbersOf program.now numbering.now }
    requires made { All (CanBeMade program.now) program.now.functions }
    requires few { length program.now.functions ≤ 255 }
    ensures kept { AreNumbersOf program.now numbering.new }
    ensures found { IfOk result (λ codes.
        codes ≡ map (compiled_function program.now) program.now.functions) }
    ensures short { IfOk result (λ codes.
        All (λ f. function_wide f ≤ most_code) program.now.functions) }
    ensures fault { IfErr result (IsFunctionsCause program.now) }
{
    let mut codes = Rows::new(alloc);
    let mut index = 0usize;
    for function in program.functions.as_slice() {
        codes.add(code_of(alloc, program, numbering, index as u8, function)?)?;
        index += 1;
    }
    Ok(codes)
}
