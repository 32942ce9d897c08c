//! The program of a source that is accepted, by calculation. It says nothing new of sources: it lets
//! definitions speak of the pages of a store as a function of their bytes.
ghost use Rattle.std.specs.Prelude.{◌≡◌, ◌↔◌, ℕ, List, Some, None};
ghost use Rattle.wap_grammar.specs.declared.program.program.Program.{Program};
ghost use Rattle.wap_meaning.specs.compiled.Accepted.{IsAccepted};
ghost use Rattle.wap_meaning.specs.accepted.AcceptedPrograms.{accepted_in};

/// A law of the calculation, which does nothing when it is called. It gives the program of a source
/// exactly where the source is accepted.
pub fn accepted_programs_are_read()
    ensures some { (source : List ℕ) (p : Program)
        → (accepted_in source ≡ Some p) ↔ IsAccepted source p }
    ensures none { (source : List ℕ)
        → (accepted_in source ≡ None) ↔ ((p : Program) → ¬ IsAccepted source p) }
{}
