//! What stands at a place of a function's code, with its operands looked at.
ghost use Rattle.std.specs.Prelude.{◌≡◌, ◌+◌, ◌<◌, ◌≤◌, ◌^◌, length, slice_index, IfOk, IfSome};
ghost use Rattle.wap_unit.specs.Instructions.{row_of, read_row};
ghost use Rattle.wap_verify.specs.CodePlaces.{arguments, values_taken, operand_fault, way_to};
ghost use Rattle.wap_verify.specs.CodePlaces.{way_on, step_of, pair, is_conditional_forward};
ghost use Rattle.wap_verify.specs.CodePlaces.{jump_by, pair_at, is_pair, fine_at, step_at};
ghost use Rattle.wap_verify.specs.inside.Work.{GoesOn};

use crate::VerifyFault;
use crate::strings::is_string;
use wap_asm::{args_of, read_row, row_of};
use wap_unit::{After, Code, Instr, Operands, Row, Takes, Unit};

/// A place where it may go on, and how many values are given on the way there.
#[derive(Clone, Copy)]
pub struct Way {
    /// The place where it goes on.
    pub to: usize,
    /// How many values are given on the way.
    pub gives: u8,
}

/// One instruction, or a short-circuit and its jump.
#[derive(Clone, Copy)]
pub struct Step {
    /// How many values it takes.
    pub takes: u32,
    /// The place after it.
    pub next: usize,
    /// How many values it gives where it goes on after it, if it does.
    pub on: Option<u8>,
    /// To the target of its jump.
    pub jump: Option<Way>,
    /// Whether the jump leads to before the code; its way means nothing then.
    pub strays: bool,
}

/// How many arguments a call hands over.
fn arguments(unit: &Unit, operands: Operands, instr: Instr) -> u32
    ensures { result ≡ arguments unit.now operands instr }
{
    match operands {
        Operands::Plain => 0,
        Operands::Variable => 0,
        Operands::Constant => 0,
        Operands::Function => match unit.functions.get(instr.a as usize) {
            Some(function) => u32::from(function.args),
            None => 0,
        },
        Operands::Library => match args_of(instr.b, instr.a) {
            Some(args) => u32::from(args),
            None => 0,
        },
        Operands::Address => instr.c,
    }
}

/// How many values an instruction takes.
fn values_taken(unit: &Unit, takes: Takes, operands: Operands, instr: Instr) -> u32
    ensures { result ≡ values_taken unit.now takes operands instr }
{
    match takes {
        Takes::Values(number) => u32::from(number),
        Takes::Arguments => arguments(unit, operands, instr),
    }
}

/// Why an operand of the instruction at this place names nothing.
fn operand_fault(
    unit: &Unit,
    function: u8,
    code: &Code,
    at: usize,
    operands: Operands,
    instr: Instr,
) -> Option<VerifyFault>
    ensures { result ≡ operand_fault unit.now function code.now at operands instr }
{
    let (is_there, fault) = match operands {
        Operands::Plain => return None,
        Operands::Variable => (
            instr.a < u32::from(code.args) + u32::from(code.locals),
            VerifyFault::Variable { function, at },
        ),
        Operands::Constant => (
            (instr.a as usize) < unit.constants.len(),
            VerifyFault::Constant { function, at },
        ),
        Operands::Function => (
            (instr.a as usize) < unit.functions.len(),
            VerifyFault::Function { function, at },
        ),
        Operands::Library => (
            args_of(instr.b, instr.a).is_some(),
            VerifyFault::Library { function, at },
        ),
        Operands::Address => (
            is_string(unit, instr.a) && is_string(unit, instr.b),
            VerifyFault::Constant { function, at },
        ),
    };
    if is_there { None } else { Some(fault) }
}

fn way_to(to: usize, gives: u8) -> Option<Way>
    ensures { result ≡ way_to to gives }
{
    Some(Way { to, gives })
}

/// Where it goes on after an instruction that takes and gives so many values.
fn step_of(after: After, at: usize, instr: Instr, takes: u32, gives: u8) -> Step
    requires { instr.next + instr.a < 2 ^ 64 }
    ensures { result ≡ step_of after at instr takes gives }
{
    let stay = Step {
        takes,
        next: instr.next,
        on: None,
        jump: None,
        strays: false,
    };
    let forward = Step {
        jump: way_to(instr.next + instr.a as usize, gives),
        ..stay
    };
    let strays = at < instr.a as usize;
    let backward = Step {
        jump: way_to(at.saturating_sub(instr.a as usize), gives),
        strays,
        ..stay
    };
    let on = Some(gives);
    match after {
        After::On => Step { on, ..stay },
        After::Forward => forward,
        After::Backward => backward,
        After::ForwardOrOn => Step { on, ..forward },
        After::BackwardOrOn => Step { on, ..backward },
        After::Pair | After::Leave => stay,
    }
}

/// The way to what stands after it.
pub(crate) fn way_on(step: Step) -> Option<Way>
    ensures { result ≡ way_on step }
{
    match step.on {
        None => None,
        Some(gives) => way_to(step.next, gives),
    }
}

/// A short-circuit and its jump, as one.
fn pair(takes: u32, jump: Instr) -> Step
    requires { jump.next + jump.a < 2 ^ 64 }
    ensures { result ≡ pair takes jump }
{
    Step {
        takes,
        next: jump.next,
        on: Some(0),
        jump: way_to(jump.next + jump.a as usize, 1),
        strays: false,
    }
}

fn is_conditional_forward(after: After) -> bool
    ensures { result ≡ is_conditional_forward after }
{
    matches!(after, After::ForwardOrOn)
}

fn is_pair(after: After) -> bool
    ensures { result ≡ is_pair after }
{
    matches!(after, After::Pair)
}

/// The short-circuit at a place, with the jump that has to stand next.
#[tactic(auto, unfolding(crate::specs::CodePlaces::pair_at))]
fn pair_at(
    function: u8,
    code: &[u8],
    at: usize,
    next: usize,
    takes: u32,
) -> Result<Step, VerifyFault>
    requires { length code.now < 2 ^ 32 }
    ensures step { result ≡ pair_at function code.now at next takes }
    ensures onward { at < next → IfOk result (GoesOn at (length code.now)) }
{
    if next >= code.len() {
        return Err(VerifyFault::LoneShort { function, at });
    }
    let Some(row) = row_of(code[next]) else {
        return Err(VerifyFault::LoneShort { function, at });
    };
    if !is_conditional_forward(row.after) {
        return Err(VerifyFault::LoneShort { function, at });
    }
    match read_row(row, code, next) {
        Ok(jump) => Ok(pair(takes, jump)),
        Err(_) => Err(VerifyFault::Operand { function, at: next }),
    }
}

/// What stands at a place where there is this instruction, whose operands are in range.
#[tactic(auto, unfolding(crate::specs::CodePlaces::fine_at))]
fn fine_at(
    unit: &Unit,
    index: u8,
    function: &Code,
    at: usize,
    row: Row,
    instr: Instr,
) -> Result<Step, VerifyFault>
    requires small { length function.now.code < 2 ^ 32 }
    requires next { instr.next ≤ length function.now.code }
    requires behind { at < instr.next }
    requires gives { row.gives ≤ 1 }
    ensures step { result ≡ fine_at unit.now index function.now at row instr }
    ensures onward { IfOk result (GoesOn at (length function.now.code)) }
{
    let takes = values_taken(unit, row.takes, row.operands, instr);
    if is_pair(row.after) {
        return pair_at(index, function.code.as_slice(), at, instr.next, takes);
    }
    Ok(step_of(row.after, at, instr, takes, row.gives))
}

/// What stands at a place of the function with this index, or the first fault there.
#[tactic(auto, unfolding(crate::specs::CodePlaces::step_at))]
#[inline(always)]
pub(crate) fn step_at(
    unit: &Unit,
    index: u8,
    function: &Code,
    at: usize,
) -> Result<Step, VerifyFault>
    requires small { length function.now.code < 2 ^ 32 }
    requires within { at < length function.now.code }
    ensures step { result ≡ step_at unit.now index function.now at }
    ensures onward { IfOk result (GoesOn at (length function.now.code)) }
{
    let code = function.code.as_slice();
    let Some(row) = row_of(code[at]) else {
        return Err(VerifyFault::Opcode {
            function: index,
            at,
        });
    };
    let Ok(instr) = read_row(row, code, at) else {
        return Err(VerifyFault::Operand {
            function: index,
            at,
        });
    };
    match operand_fault(unit, index, function, at, row.operands, instr) {
        Some(fault) => Err(fault),
        None => fine_at(unit, index, function, at, row, instr),
    }
}
