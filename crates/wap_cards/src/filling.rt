//! Texts and values of attributes, filled from variables (WAP-191, section 10.3).
ghost use Rattle.std.specs.Prelude.{◌≡◌, ◌++◌, true, IfOk, OnOk};
ghost use Rattle.std.specs.Str.{chars};
ghost use Rattle.wap_base.specs.Names.{is_name};
ghost use Rattle.wap_tokens.specs.markup.Trees.{value_of};
ghost use Rattle.wap_vars.specs.Filling.{filled, part_text, value_text};
ghost use Rattle.wap_cardrules.specs.Values.{value_if};

use std::alloc::Global;
use wap_base::{Conv, Name, NameFault, NoMemory, Part, Text};
use wap_deck::good::{AttrName, Bit, Run, View};
use wap_vars::Vars;

/// The name of a variable.
fn name_of(alloc: Global, name: &str) -> Result<Name, NoMemory>
    requires { is_name (chars name.now) ≡ true }
    ensures { IfOk result (λ found. found ≡ chars name.now) }
{
    let text = Text::of(alloc, name)?;
    match Name::of(alloc, &text) {
        Ok(name) => Ok(name),
        Err(NameFault::NoMemory) => Err(NoMemory),
        Err(NameFault::BadName) => unreachable!(),
    }
}

/// Appends what stands for a reference to a variable.
fn add_reference(
    alloc: Global,
    vars: &Vars,
    name: &str,
    conv: Conv,
    whole: &mut Text,
) -> Result<(), NoMemory>
    requires { is_name (chars name.now) ≡ true }
    ensures { OnOk result
        (whole.new ≡ whole.old ++ part_text vars.now (Part.Var (chars name.now) conv)) }
{
    let part = Part::Var(name_of(alloc, name)?, conv);
    let text = vars.fill(alloc, &[part])?;
    whole.add(text.as_str())
}

/// A text, or the value of an attribute, filled.
#[tactic(auto, using(crate::proofs::FilledValues::filled_first))]
pub fn fill(alloc: Global, vars: &Vars, run: Run<'_>) -> Result<Text, NoMemory>
    ensures { IfOk result (λ text. text ≡ filled vars.now run.entry) }
{
    let mut whole = Text::new(alloc);
    for bit in run {
        match bit {
            Bit::Slice(text) => whole.add(text)?,
            Bit::Char(character) => whole.push(character)?,
            Bit::Var(name, conv) => add_reference(alloc, vars, name, conv, &mut whole)?,
        }
    }
    Ok(whole)
}

/// The value of an attribute, filled; without the attribute, the empty text.
pub fn fill_value(
    alloc: Global,
    vars: &Vars,
    view: &View<'_>,
    name: AttrName,
) -> Result<Text, NoMemory>
    ensures { IfOk result (λ text. text ≡ value_text vars.now (value_of name view.now)) }
{
    match view.attr(name) {
        Some(value) => fill(alloc, vars, value),
        None => Ok(Text::new(alloc)),
    }
}

/// The value of an attribute, filled, if there is the attribute.
pub fn value_if(
    alloc: Global,
    vars: &Vars,
    view: &View<'_>,
    name: AttrName,
) -> Result<Option<Text>, NoMemory>
    ensures { IfOk result (λ text. text ≡ value_if vars.now name view.now) }
{
    match view.attr(name) {
        Some(value) => Ok(Some(fill(alloc, vars, value)?)),
        None => Ok(None),
    }
}
