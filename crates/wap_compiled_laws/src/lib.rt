//! Laws alone, which run nothing: the code that is chosen for functions comes to what their sources
//! mean, and the units of accepted sources do; they may be run, and can be written and read back.
//!
//! - `pieces`: Pieces of placed code do what parts of sources do.
//! - `induction`: What holds of the pieces of code holds of the code of each expression and
//!   statement.
//! - `expressions`: Expressions of sources and their code agree.
//! - `statements`: Statements of sources and their code agree.
//! - `bodies`: The code of functions comes to what these mean.
//! - `depths`: The code of sources has one number of operands at each form.
//! - `labels`: The jumps of code know their labels, and its operands are in range.
//! - `soundness`: Placed code of sources reaches each of its places with one number of values, and
//!   with enough.
//! - `runnable`: The code of sources may be run.
//! - `code_sizes`: The code of programs, form by form: its operands have room, what it needs is
//!   there, and its size is the wide size but for what is saved.
//! - `source_sizes`: How many bytes the texts of a source have, beside the tokens that they are
//!   drawn from.
//! - `spelling`: The unit that a program is compiled to has a spelling.
#![tactic(auto)]

ghost use Rattle.std.specs.Prelude.{◌≤◌, ℕ, List, length};
ghost use Rattle.std.specs.List.{All};
ghost use Rattle.wap_grammar.specs.declared.program.program.Program.{Program as TheProgram};
ghost use Rattle.wap_scope.specs.Scoped.{IsScoped};
ghost use Rattle.wap_meaning.specs.coding.Compiled.{IsCompiled};
ghost use Rattle.wap_verify.specs.Sound.{IsVerified};
ghost use Rattle.wap_meaning.specs.compiled.Pool.{pool};
ghost use Rattle.wap_meaning.specs.compiled.Units.{compiled};
ghost use Rattle.wap_meaning.specs.compiled.Accepted.{IsSourceOf, IsAccepted, most_constants};
ghost use Rattle.wap_compiled_laws.specs.Laws.{HasForms, HasCode, AgreeWithSources};

pub mod bodies;
pub mod runnable;
pub mod spelling;

/// What the states of a host are.
pub trait HostStates {
    ghost State: { Type 0 };
}

/// Where the constants of a program have room, the forms of its functions may be placed, and the
/// wide size of a function is known by them.
pub fn forms_may_be_placed()
    ensures { (source : List ℕ) (p : TheProgram) → IsSourceOf source p → IsScoped p
        → length (pool p) ≤ most_constants → All (HasForms p) p.functions }
{}

/// Each function of an accepted program has the shortest code, and no more than its wide size.
pub fn code_is_short()
    ensures { (source : List ℕ) (p : TheProgram) → IsAccepted source p
        → All (HasCode p) p.functions }
{}

/// The unit of an accepted program is one that the program is compiled to.
pub fn accepted_programs_are_compiled()
    ensures { (source : List ℕ) (p : TheProgram) → IsAccepted source p
        → IsCompiled p (compiled p) }
{}

/// It means what its source means.
pub fn compiled_programs_agree<H: HostStates>()
    ensures { AgreeWithSources H.State }
{}

/// It may be run.
pub fn compiled_programs_are_verified()
    ensures { (source : List ℕ) (p : TheProgram) → IsAccepted source p
        → IsVerified (compiled p) }
{}
