//! Laws of what the programs of sources need: it is drawn from their tokens, and its constants are
//! those of the unit, each once. Each is the contract of a function that does nothing.
ghost use Rattle.std.specs.Prelude.{◌≡◌, ◌↔◌, ℕ, false, List, [], AllPairs, Contains};
ghost use Rattle.std.specs.List.{All, AllByRecursion};
ghost use Rattle.wap_lex.specs.declared.token.Token.{Token};
ghost use Rattle.wap_grammar.specs.Lexemes.{lexemes_of};
ghost use Rattle.wap_grammar.specs.Programs.{Spells};
ghost use Rattle.wap_grammar.specs.declared.program.program.Program.{Program};
ghost use Rattle.wap_grammar.specs.declared.program.expression.Literal.{Literal};
ghost use Rattle.wap_meaning.specs.coding.Constants.{same_literal};
ghost use Rattle.wap_meaning.specs.compiled.Pool.{literals_needed, pool};
ghost use Rattle.wap_meaning.specs.needs.Drawn.{function_needs, program_needs, HasOperator, Drawn};

/// Each literal and each operator that a program needs stands among the tokens that spell it, and
/// so do the names of functions of other units, all in the order in which they are needed.
pub fn needs_are_drawn()
    ensures { (src : List ℕ) (tokens : List Token) (p : Program)
        → Spells src p (lexemes_of src tokens)
        → Drawn src (lexemes_of src tokens) (program_needs p) [] }
{}

/// The operator of an assignment takes the values of both sides.
pub fn assignments_take_both()
    ensures { (src : List ℕ) (tokens : List Token) (p : Program)
        → Spells src p (lexemes_of src tokens)
        → All (λ f. AllByRecursion HasOperator (function_needs f)) p.functions }
{}

/// The constants of a unit are the integers and texts that its program needs, and no two of them
/// are one.
pub fn needs_are_pooled_once()
    ensures needed { (p : Program) (l : Literal)
        → Contains (pool p) l ↔ Contains (literals_needed p) l }
    ensures once { (p : Program)
        → AllPairs (λ one other. same_literal one other ≡ false) (pool p) }
{}
