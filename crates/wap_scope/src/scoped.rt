//! Programs whose names are in order, and what is wrong with those whose names aren't.
ghost use Rattle.std.specs.Prelude.{◌≡◌, ◌≢◌, Some, IfOk, OnOk, IfErr};
ghost use Rattle.wap_scope.specs.Scoped.{IsFault, IsScoped};
ghost use Rattle.wap_scope.specs.Faults.{faults, first_fault};

use crate::ScopeFault;
use crate::functions::judge;
use std::alloc::Global;
use std::marker::Model;
use wap_grammar::program::Program;

/// A program whose names are in order. A contract sees the program.
#[derive(Drop)]
pub struct Scoped {
    program: Program,
}

impl Model for Scoped {
    ghost use Rattle.wap_grammar.specs.declared.program.program.Program.{Program};
    ghost use Rattle.wap_grammar.specs.contracts.program.statement.Stmt as statement;
    ghost use Rattle.std.specs.Coded.{codes};

    ghost Value = { Program };

    ghost coded = { Prim.hlevel (codes, statement.the_row.coded) };

    ghost use Rattle.wap_scope.specs.Scoped.{IsScoped};

    ghost view = { λ scoped. scoped.program };

    ghost invariant = { λ scoped. IsScoped scoped.program };
}

impl Scoped {
    /// The program, whose names are in order.
    pub fn program(&self) -> &Program
        ensures same { result.now ≡ self.now }
        ensures scoped { IsScoped result.now }
    {
        &self.program
    }
}

/// The program as one whose names are in order, or the first of its faults: in the order of the
/// source (`faults_ascend`), and at one place in the order in which `ScopeFault` lists them. A
/// program that is refused comes back, also where memory runs out.
pub fn resolve(alloc: Global, program: Program) -> Result<Scoped, (Program, ScopeFault)>
    ensures same { IfOk result (λ scoped. scoped ≡ program) }
    ensures scoped { OnOk result (IsScoped program) }
    ensures back { IfErr result (λ refused. refused.0 ≡ program) }
    ensures fault { IfErr result (λ refused. refused.1 ≢ ScopeFault.NoMemory
        → IsFault program refused.1) }
    ensures first { IfErr result (λ refused. refused.1 ≢ ScopeFault.NoMemory
        → first_fault (faults program) ≡ Some refused.1) }
{
    match judge(alloc, &program) {
        Ok(()) => Ok(Scoped { program }),
        Err(fault) => Err((program, fault)),
    }
}
