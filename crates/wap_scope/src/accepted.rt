//! Laws of programs whose names are in order: what may be taken for granted where code is made for
//! them. The functions here do nothing, and carry the laws alone.
ghost use Rattle.std.specs.Prelude.{◌≡◌, ◌++◌, false, map};
ghost use Rattle.std.specs.List.{flat_map};
ghost use Rattle.wap_grammar.specs.declared.program.program.Function.{Function};
ghost use Rattle.wap_grammar.specs.declared.program.program.Program.{Program};
ghost use Rattle.wap_scope.specs.Names.{mentions, names_declared};
ghost use Rattle.wap_scope.specs.Scoped.{IsScoped};
ghost use Rattle.wap_scope.specs.accepted.Known.{variables, AllCanBeCoded};

/// What the functions of such a program name is there, and their jumps stand in loops. The
/// parameters of a function are the first of its variables.
pub fn scoped_names_are_known()
    ensures known { (p : Program) → IsScoped p → AllCanBeCoded p }
    ensures parameters { (f : Function) → variables f ≡ map (λ v. v.name) f.params
        ++ names_declared (flat_map (λ s. mentions s false) f.body) }
{}
