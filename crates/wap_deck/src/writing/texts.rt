//! Parts of texts and of values.
ghost use Rattle.std.specs.Prelude.{◌≡◌, true, OnOk};
ghost use Rattle.std.specs.List.{flat_map, AllByRecursion};
ghost use Rattle.std.specs.Str.{all_scalars};
ghost use Rattle.wap_tokens.specs.markup.Writing.{runs_of, part_kids};
ghost use Rattle.wap_wbxml.specs.spelling.Characters.{OfPart};
ghost use Rattle.wap_wbxml.specs.spelling.Writings.{each};
ghost use Rattle.wap_wbxml.specs.spelling.Written.{written};
ghost use Rattle.wap_deck.specs.writing.inside.WrittenTexts.{run_spelling, part_spelling, has_any};

use crate::writing::runs::{is_string, runs_in};
use std::alloc::Global;
use wap_base::{NoMemory, Part, Text};
use wap_wbxml::spelling::Output;

/// Writes a string, or a U+0000 by its number.
fn write_run(output: &mut Output, run: &Option<Text>) -> Result<(), NoMemory>
    ensures { OnOk result (output.new ≡ written (run_spelling run.now) output.old) }
{
    match run {
        Some(text) => output.write_text(text),
        None => output.write_entity(0),
    }
}

/// Writes strings and U+0000.
fn write_runs(output: &mut Output, runs: &[Option<Text>]) -> Result<(), NoMemory>
    ensures { OnOk result (output.new ≡ written (each run_spelling runs.now) output.old) }
{
    for run in runs {
        write_run(output, run)?;
    }
    Ok(())
}

/// Writes a literal, which mostly is one string.
fn write_literal(alloc: Global, output: &mut Output, text: &Text) -> Result<(), NoMemory>
    ensures written { OnOk result
        (output.new ≡ written (each run_spelling (runs_of text.now)) output.old) }
    ensures characters { all_scalars text.now ≡ true }
{
    let characters = text.as_str();
    if is_string(text) {
        output.write_text(text)?;
        return Ok(());
    }
    let runs = runs_in(alloc, characters)?;
    write_runs(output, runs.as_slice())?;
    Ok(())
}

/// Writes a part.
fn write_part(alloc: Global, output: &mut Output, part: &Part) -> Result<(), NoMemory>
    ensures written { OnOk result (output.new ≡ written (part_spelling part.now) output.old) }
    ensures characters { OfPart part.now }
{
    match part {
        Part::Lit(text) => write_literal(alloc, output, text),
        Part::Var(name, conv) => output.write_variable(name.text(), *conv),
    }
}

/// Writes parts.
pub(crate) fn write_parts(
    alloc: Global,
    output: &mut Output,
    parts: &[Part],
) -> Result<(), NoMemory>
    ensures written { OnOk result
        (output.new ≡ written (each part_spelling parts.now) output.old) }
    ensures characters { OnOk result (AllByRecursion OfPart parts.now) }
{
    for part in parts {
        write_part(alloc, output, part)?;
    }
    Ok(())
}

/// Whether a part gives a string, a U+0000 or a reference.
fn gives(part: &Part) -> bool
    ensures { result ≡ has_any (part_kids part.now) }
{
    match part {
        Part::Lit(text) => !text.is_empty(),
        Part::Var(_, _) => true,
    }
}

/// Whether one of some parts does.
pub(crate) fn have_content(parts: &[Part]) -> bool
    ensures { result ≡ has_any (flat_map part_kids parts.now) }
{
    for part in parts {
        if gives(part) {
            return true;
        }
    }
    false
}
