//! The constants that programs need.
ghost use Rattle.std.specs.Prelude.{OnOk};
ghost use Rattle.std.specs.List.{flat_map};
ghost use Rattle.wap_meaning.specs.needs.Drawn.{text_needs, function_needs};
ghost use Rattle.wap_codegen.specs.pool.inside.Pools.{Pools, kept_needs, pooled_needs};

use crate::pool::numbering::Numbering;
use crate::pool::statements::add_statements;
use std::alloc::Global;
use wap_base::{NoMemory, Text};
use wap_grammar::program::{Function, Program, Use};

/// Adds a text of a pragma, if it has it.
fn add_text(alloc: Global, numbering: &mut Numbering, text: &Option<Text>) -> Result<(), NoMemory>
    ensures { OnOk result (Pools (text_needs text.now) numbering.old numbering.new) }
{
    match text {
        None => Ok(()),
        Some(text) => numbering.add_text(alloc, text),
    }
}

/// Adds those of a pragma.
fn add_use(alloc: Global, numbering: &mut Numbering, pragma: &Use) -> Result<(), NoMemory>
    ensures { OnOk result (Pools (kept_needs pragma.now) numbering.old numbering.new) }
{
    match pragma {
        Use::Url(_, _) => Ok(()),
        Use::Access(domain, path, _) => {
            add_text(alloc, numbering, domain)?;
            add_text(alloc, numbering, path)
        }
        Use::Agent(name, content, scheme) => {
            numbering.add_text(alloc, name)?;
            numbering.add_text(alloc, content)?;
            add_text(alloc, numbering, scheme)
        }
        Use::Note => Ok(()),
    }
}

/// Adds those of pragmas.
fn add_uses(alloc: Global, numbering: &mut Numbering, uses: &[Use]) -> Result<(), NoMemory>
    ensures { OnOk result (Pools (flat_map kept_needs uses.now) numbering.old numbering.new) }
{
    for pragma in uses {
        add_use(alloc, numbering, pragma)?;
    }
    Ok(())
}

/// Adds those of functions.
fn add_functions(
    alloc: Global,
    numbering: &mut Numbering,
    functions: &[Function],
) -> Result<(), NoMemory>
    ensures { OnOk result (Pools (flat_map function_needs functions.now)
        numbering.old numbering.new) }
{
    for function in functions {
        add_statements(alloc, numbering, function.body.as_slice())?;
    }
    Ok(())
}

/// Adds the constants of a program, whose units' names stand for URLs already.
pub(crate) fn add_constants(
    alloc: Global,
    numbering: &mut Numbering,
    program: &Program,
) -> Result<(), NoMemory>
    ensures { OnOk result (Pools (pooled_needs program.now) numbering.old numbering.new) }
{
    add_uses(alloc, numbering, program.uses.as_slice())?;
    add_functions(alloc, numbering, program.functions.as_slice())
}
