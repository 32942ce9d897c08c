//! The code of sources may be run: a law, the contract of a function that
//! does nothing.
ghost use Rattle.std.specs.Prelude.{ℕ, List};
ghost use Rattle.wap_unit.specs.declared.unit.Code.{Code as TheCode};
ghost use Rattle.wap_unit.specs.declared.unit.Unit.{Unit as TheUnit};
ghost use Rattle.wap_grammar.specs.declared.program.expression.Literal.{Literal as TheLiteral};
ghost use Rattle.wap_grammar.specs.declared.program.program.Function.{Function as TheFunction};
ghost use Rattle.wap_grammar.specs.declared.program.program.Program.{Program as TheProgram};
ghost use Rattle.wap_meaning.specs.coding.Compiled.{IsCodeOf};
ghost use Rattle.wap_verify.specs.Sound.{IsSound};

/// Compiled code may be run: it splits, its operands are in range, its jumps have targets, and each
/// of its places is reached with one number of values, and with enough.
pub fn compiled_code_is_sound()
    ensures { (p : TheProgram) (u : TheUnit) (pool : List TheLiteral) (f : TheFunction)
        (code : TheCode) (index : ℕ) → IsCodeOf p u pool f code → IsSound u index code }
{}
