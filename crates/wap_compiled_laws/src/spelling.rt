//! The unit that a program is compiled to has a spelling, which is read back: a law, the contract of
//! a function that does nothing.
ghost use Rattle.std.specs.Prelude.{◌≡◌, ℕ, ◌<◌, ◌^◌, List, length, Ok};
ghost use Rattle.wap_grammar.specs.declared.program.program.Program.{Program as TheProgram};
ghost use Rattle.wap_unit.specs.Spelling.{spelling, HasSpelling};
ghost use Rattle.wap_unit.specs.reading.UnitReading.{unit_at};
ghost use Rattle.wap_meaning.specs.compiled.Units.{compiled};
ghost use Rattle.wap_meaning.specs.compiled.Accepted.{IsAccepted};

/// The unit of an accepted program can be written, and read back.
pub fn compiled_programs_are_spelled()
    ensures spelled { (source : List ℕ) (p : TheProgram) → IsAccepted source p
        → HasSpelling (compiled p) }
    // What is written has fewer bytes than `decode` takes,
    ensures short { (source : List ℕ) (p : TheProgram) → IsAccepted source p
        → length (spelling (compiled p)) < 2 ^ 32 }
    // and reading these gives that very unit.
    ensures read { (source : List ℕ) (p : TheProgram) → IsAccepted source p
        → unit_at (spelling (compiled p)) ≡ Ok (compiled p) }
{}
