//! What functions and pragmas say by names.
ghost use Rattle.std.specs.Prelude.{◌≡◌, [], Ok};
ghost use Rattle.wap_base.specs.Outcome.{Meets};
ghost use Rattle.wap_scope.specs.declared.fault.ScopeFault.TheVariants.{NoMemory};
ghost use Rattle.wap_scope.specs.Names.{said, units};
ghost use Rattle.wap_scope.specs.Faults.{one_by_one, use_rule, function_rule, faults};
ghost use Rattle.wap_scope.specs.inside.Globals.{scope_by};
ghost use Rattle.wap_scope.specs.inside.Walks.{unless, each, walked};
ghost use Rattle.wap_scope.specs.inside.Walks.{parameter_at, function_at, use_at};

use crate::ScopeFault;
use crate::globals::{Arities, Globals};
use crate::limits::FUNCTION_LIMIT;
use crate::names::Names;
use crate::statements::{declare, judge_statements};
use std::alloc::Global;
use wap_grammar::program::{Function, Id, Program, Use};

/// Judges a pragma after others, of which the units are known and whether they say who may call the
/// unit.
fn judge_use(
    alloc: Global,
    known: &mut Names,
    limited: &mut bool,
    pragma: &Use,
) -> Result<(), ScopeFault>
    ensures { Meets NoMemory (λ _. (known.new, limited.new)) result
        (use_at (known.old, limited.old) pragma.now) }
{
    match pragma {
        Use::Url(unit, _) => {
            if !known.insert(alloc, &unit.name)? {
                return Err(ScopeFault::TwoUnits { span: unit.span });
            }
            Ok(())
        }
        Use::Access(_, _, span) => {
            if *limited {
                return Err(ScopeFault::TwoAccess { span: *span });
            }
            *limited = true;
            Ok(())
        }
        Use::Agent(..) | Use::Note => Ok(()),
    }
}

/// Judges pragmas, and gives the names of units.
fn judge_uses(alloc: Global, uses: &[Use]) -> Result<Names, ScopeFault>
    ensures { Meets NoMemory (λ names. names) result
        (unless (one_by_one use_rule [] uses.now) (Ok (units uses.now))) }
{
    let mut known = Names::new(alloc);
    let mut limited = false;
    for pragma in uses {
        judge_use(alloc, &mut known, &mut limited, pragma)?;
    }
    Ok(known)
}

/// Judges the parameters of a function, and makes them known.
fn judge_parameters(
    alloc: Global,
    globals: &Globals,
    known: &mut Names,
    params: &[Id],
) -> Result<(), ScopeFault>
    ensures { Meets NoMemory (λ _. known.new) result
        (each (parameter_at (scope_by globals.now)) known.old params.now) }
{
    for param in params {
        declare(alloc, globals, known, param)?;
    }
    Ok(())
}

/// Judges what a function says, and gives the names of its variables.
fn judge_said(alloc: Global, globals: &Globals, function: &Function) -> Result<Names, ScopeFault>
    ensures { Meets NoMemory (λ known. known) result
        (walked (scope_by globals.now) [] (said function.now)) }
{
    let mut known = Names::new(alloc);
    judge_parameters(alloc, globals, &mut known, function.params.as_slice())?;
    judge_statements(alloc, globals, &mut known, false, function.body.as_slice())?;
    Ok(known)
}

/// Judges a function after these.
fn judge_function(
    alloc: Global,
    globals: &Globals,
    earlier: &mut Names,
    function: &Function,
) -> Result<(), ScopeFault>
    ensures { Meets NoMemory (λ _. earlier.new) result
        (function_at (scope_by globals.now) earlier.old function.now) }
{
    let span = function.name.span;
    let count = earlier.len();
    if !earlier.insert(alloc, &function.name.name)? {
        return Err(ScopeFault::TwoFunctions { span });
    }
    if count >= FUNCTION_LIMIT {
        return Err(ScopeFault::TooManyFunctions { span });
    }
    judge_said(alloc, globals, function)?;
    Ok(())
}

/// Judges functions.
fn judge_functions(
    alloc: Global,
    globals: &Globals,
    functions: &[Function],
) -> Result<(), ScopeFault>
    ensures { Meets NoMemory (λ _. functions.now) result
        (unless (one_by_one (function_rule (scope_by globals.now)) [] functions.now)
        (Ok functions.now)) }
{
    let mut earlier = Names::new(alloc);
    for function in functions {
        judge_function(alloc, globals, &mut earlier, function)?;
    }
    Ok(())
}

/// Judges a program.
pub(crate) fn judge(alloc: Global, program: &Program) -> Result<(), ScopeFault>
    ensures { Meets NoMemory (λ _. program.now) result
        (unless (faults program.now) (Ok program.now)) }
{
    let units = judge_uses(alloc, program.uses.as_slice())?;
    let functions = program.functions.as_slice();
    let arities = Arities::of(alloc, functions)?;
    let globals = Globals { units, arities };
    judge_functions(alloc, &globals, functions)
}
