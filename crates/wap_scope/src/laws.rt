//! What follows of the names of programs. The functions here do nothing, and carry the laws alone.
ghost use Rattle.std.specs.Prelude.{◌≡◌, ◌≢◌, ◌↔◌, All, AllPairs, Contains, []};
ghost use Rattle.wap_grammar.specs.declared.program.program.Program.{Program};
ghost use Rattle.wap_scope.specs.declared.fault.ScopeFault.{ScopeFault};
ghost use Rattle.wap_scope.specs.declared.fault.ScopeFault.TheVariants.{NoMemory};
ghost use Rattle.wap_scope.specs.Scoped.{IsFault, IsScoped};
ghost use Rattle.wap_scope.specs.Faults.{faults};
ghost use Rattle.wap_scope.specs.Meanings.{HaveMeanings};
ghost use Rattle.wap_scope.specs.Places.{places, fault_places, AscendFrom};
ghost use Rattle.wap_scope.specs.Places.{IsLeftOf, ComesBefore};

/// The list of a program's faults has each of them, and nothing else.
pub fn faults_are_listed()
    ensures { (p : Program) (why : ScopeFault) → IsFault p why ↔ Contains (faults p) why }
{}

/// Where the names of a program are in order, the list is empty.
pub fn scoped_is_faultless()
    ensures { (p : Program) → IsScoped p ↔ (faults p ≡ []) }
{}

/// In them each variable, each call and each unit means one thing.
pub fn names_have_one_meaning()
    ensures { (p : Program) → IsScoped p → HaveMeanings p }
{}

/// Each fault has a place. Where the names of a program stand in the order of its source, so do its
/// faults; and where no two of the names stand at one place, of two faults at one place that comes
/// before which `ScopeFault` lists before.
pub fn faults_ascend()
    ensures placed { (p : Program) → All (λ fault. fault ≢ NoMemory) (faults p) }
    ensures ascend { (p : Program) → AscendFrom 0 (places p)
        → AscendFrom 0 (fault_places (faults p)) }
    ensures ordered { (p : Program) → AllPairs IsLeftOf (places p)
        → AllPairs ComesBefore (faults p) }
{}
