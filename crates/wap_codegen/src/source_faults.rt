//! Why sources aren't compiled: each that isn't accepted has a fault, and none that is. The
//! functions here do nothing, and carry the laws alone.
ghost use Rattle.std.specs.Prelude.{◌≡◌, ◌<◌, ◌^◌, ℕ, List, length};
ghost use Rattle.wap_grammar.specs.declared.program.program.Program.{Program};
ghost use Rattle.wap_meaning.specs.compiled.Accepted.{IsAccepted};
ghost use Rattle.wap_codegen.specs.declared.fault.CompileFault.{CompileFault};
ghost use Rattle.wap_codegen.specs.source_faults.Faults.{IsFaultOf};

/// A source that is accepted has no fault, and each other one has some.
pub fn sources_are_accepted_or_have_faults()
    ensures none { (source : List ℕ) (p : Program) (fault : CompileFault) → IsAccepted source p
        → ¬ IsFaultOf source fault }
    ensures some { (source : List ℕ) → length source < 2 ^ 31
        → ((p : Program) → ¬ IsAccepted source p)
        → (fault : CompileFault) × IsFaultOf source fault }
{}

/// A source has one fault alone.
pub fn sources_have_one_fault()
    ensures { (source : List ℕ) (one other : CompileFault) → IsFaultOf source one
        → IsFaultOf source other → one ≡ other }
{}
