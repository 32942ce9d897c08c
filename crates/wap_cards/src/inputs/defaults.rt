//! The variables that a card's fields have when it is shown (WAP-191, sections 11.6.2 and 11.6.3).
ghost use Rattle.std.specs.Prelude.{◌≡◌, ◌++◌, false, IfOk, OnOk, OnErr};
ghost use Rattle.std.specs.Option.{option_map_or};
ghost use Rattle.wap_vars.specs.Variables.{text_of, removed};
ghost use Rattle.wap_cardrules.specs.Values.{value_if};
ghost use Rattle.wap_cardrules.specs.Inputs.{input_variable, takes};
ghost use Rattle.wap_cardrules.specs.Setting.{default_text, default_input, default, defaults};
ghost use Rattle.wap_cards.specs.inputs.inside.Defaults.{if_taken, taken_value, set_or_unset};
ghost use Rattle.wap_cards.specs.inputs.Stopped.{FirstStand, default_sets, DefaultsStand};

use crate::inputs::choices::choice_of;
use crate::inputs::inputs::{input_variable, takes};
use crate::inputs::sets::set_choice;
use crate::inputs::setting::set_one;
use crate::{fields_of, text_under, value_if};
use std::alloc::Global;
use wap_base::{Name, NameFault, NoMemory, Rows, Text};
use wap_deck::good::{AttrName, Tag, View};
use wap_vars::{VarFault, Vars};

/// Whether an input takes the text that its variable has.
fn is_kept(alloc: Global, vars: &Vars, input: &View<'_>) -> Result<bool, NoMemory>
    ensures { IfOk result (λ is_so. is_so
        ≡ option_map_or (takes vars.now input.now)
        (text_of vars.now (input_variable input.now)) false) }
{
    let name = input_variable(alloc, input)?;
    match text_under(alloc, vars, &name)? {
        Some(text) => takes(alloc, vars, input, &text),
        None => Ok(false),
    }
}

/// Unsets a variable.
fn unset(alloc: Global, vars: &mut Vars, name: &Text) -> Result<(), NoMemory>
    ensures removed { OnOk result (vars.new ≡ removed vars.old name.now) }
    ensures kept { OnErr result (vars.new ≡ vars.old) }
{
    match Name::of(alloc, name) {
        Ok(name) => {
            vars.remove(&name);
            Ok(())
        }
        Err(NameFault::BadName) => {
            vars.keep_rules();
            Ok(())
        }
        Err(NameFault::NoMemory) => Err(NoMemory),
    }
}

/// The value of an input, filled, if the input takes that.
fn taken_value(alloc: Global, vars: &Vars, input: &View<'_>) -> Result<Option<Text>, NoMemory>
    ensures { IfOk result (λ text. text ≡ taken_value vars.now input.now) }
{
    match value_if(alloc, vars, input, AttrName::Value)? {
        Some(value) => if_taken(alloc, vars, input, value),
        None => Ok(None),
    }
}

/// A text, if an input takes it.
fn if_taken(
    alloc: Global,
    vars: &Vars,
    input: &View<'_>,
    text: Text,
) -> Result<Option<Text>, NoMemory>
    ensures { IfOk result (λ taken. taken ≡ if_taken vars.now input.now text) }
{
    if takes(alloc, vars, input, &text)? {
        Ok(Some(text))
    } else {
        Ok(None)
    }
}

/// Sets a variable to a text, or unsets it where there is none.
fn set_or_unset(
    alloc: Global,
    vars: &mut Vars,
    name: &Text,
    text: Option<Text>,
    refused: &mut Rows<VarFault>,
) -> Result<(), NoMemory>
    ensures set { OnOk result (vars.new ≡ (set_or_unset vars.old name.now text).vars) }
    ensures refused { OnOk result
        (refused.new ≡ refused.old ++ (set_or_unset vars.old name.now text).refused) }
    ensures kept { OnErr result (vars.new ≡ vars.old) }
{
    match text {
        Some(text) => set_one(vars, name, text, refused),
        None => unset(alloc, vars, name),
    }
}

/// Gives an input that has no text that it takes its value, or unsets its variable.
#[tactic(auto, using(crate::proofs::InputsLemmas::Giving::default_by))]
fn default_text(
    alloc: Global,
    input: &View<'_>,
    vars: &mut Vars,
    refused: &mut Rows<VarFault>,
) -> Result<(), NoMemory>
    ensures set { OnOk result (vars.new
        ≡ (default_text vars.old input.now (value_if vars.old AttrName.Value input.now)).vars) }
    ensures refused { OnOk result (refused.new ≡ refused.old
        ++ (default_text vars.old input.now (value_if vars.old AttrName.Value input.now)).refused) }
    ensures kept { OnErr result (vars.new ≡ vars.old) }
{
    let name = input_variable(alloc, input)?;
    let value = taken_value(alloc, vars, input)?;
    set_or_unset(alloc, vars, &name, value, refused)
}

/// Gives an input its default.
fn default_input(
    alloc: Global,
    input: &View<'_>,
    vars: &mut Vars,
    refused: &mut Rows<VarFault>,
) -> Result<(), NoMemory>
    ensures set { OnOk result (vars.new ≡ (default_input vars.old input.now).vars) }
    ensures refused { OnOk result
        (refused.new ≡ refused.old ++ (default_input vars.old input.now).refused) }
    ensures kept { OnErr result (vars.new ≡ vars.old) }
{
    let is_kept = is_kept(alloc, vars, input)?;
    if is_kept {
        Ok(())
    } else {
        default_text(alloc, input, vars, refused)
    }
}

/// Gives a field its default.
#[tactic(auto, using(crate::proofs::InputsLemmas::Orders::none_stands))]
fn default(
    alloc: Global,
    field: &View<'_>,
    vars: &mut Vars,
    refused: &mut Rows<VarFault>,
) -> Result<(), NoMemory>
    ensures set { OnOk result (vars.new ≡ (default vars.old field.now).vars) }
    ensures refused { OnOk result
        (refused.new ≡ refused.old ++ (default vars.old field.now).refused) }
    ensures stopped { OnErr result
        (FirstStand vars.old (default_sets vars.old field.now) vars.new) }
{
    if field.tag() == Tag::Input {
        return default_input(alloc, field, vars, refused);
    }
    if field.tag() == Tag::Select {
        let choice = choice_of(alloc, vars, field)?;
        return set_choice(alloc, field, choice.as_slice(), vars, refused);
    }
    Ok(())
}

/// Gives each field of a card its default, in the order of the document, and tells which sets were
/// refused. Without memory the defaults of some first fields stand, and some first sets of the
/// next one.
#[tactic(auto, using(crate::proofs::InputsLemmas::Orders::none_stands))]
pub fn apply_defaults(
    alloc: Global,
    card: &View<'_>,
    vars: &mut Vars,
) -> Result<Rows<VarFault>, NoMemory>
    ensures vars { OnOk result (vars.new ≡ (defaults vars.old card.now).vars) }
    ensures refused { IfOk result (λ refused. refused ≡ (defaults vars.old card.now).refused) }
    ensures stopped { OnErr result (DefaultsStand vars.old card.now vars.new) }
{
    let fields = fields_of(alloc, card)?;
    let mut refused = Rows::new(alloc);
    for field in fields.as_slice() {
        default(alloc, field, vars, &mut refused)?;
    }
    Ok(refused)
}
