//! What a choice says (WAP-191, section 11.6.2).
ghost use Rattle.std.specs.Prelude.{◌≡◌, ◌++◌, map, length, codes, IfOk, OnOk, decimal};
ghost use Rattle.std.specs.List.{items_where_true};
ghost use Rattle.std.specs.Option.{option_map};
ghost use Rattle.wap_cardrules.specs.Values.{variable_in};
ghost use Rattle.wap_cardrules.specs.Selects.{numbers, index_joined, index_text, choice_text};
ghost use Rattle.wap_cardrules.specs.Setting.{under};
ghost use Rattle.wap_cards.specs.inputs.inside.Marking.{text_if};

use crate::inputs::options::values_of;
use crate::inputs::pieces::join_all;
use crate::variable_in;
use std::alloc::Global;
use wap_base::{NoMemory, Rows, Text};
use wap_deck::good::{AttrName, View};
use wap_vars::Vars;

/// Appends a text, if it is to be.
fn add_if(alloc: Global, is_it: bool, text: &Text, some: &mut Rows<Text>) -> Result<(), NoMemory>
    ensures { OnOk result (some.new ≡ some.old ++ text_if is_it text.now) }
{
    if is_it {
        some.add(text.copy(alloc)?)?;
    }
    Ok(())
}

/// The texts whose options are chosen.
#[tactic(auto, using(crate::proofs::InputsLemmas::Saying::chosen_all))]
fn chosen_texts(alloc: Global, choice: &[bool], texts: &[Text]) -> Result<Rows<Text>, NoMemory>
    ensures { IfOk result (λ some. some ≡ items_where_true choice.now texts.now) }
{
    let mut some = Rows::new(alloc);
    for place in 0..choice.len().min(texts.len()) {
        add_if(alloc, choice[place], &texts[place], &mut some)?;
    }
    Ok(some)
}

/// Numbers from 1, so many, in decimal digits.
#[tactic(auto, using(crate::proofs::InputsLemmas::Saying::decimals_more))]
fn decimals(alloc: Global, count: usize) -> Result<Rows<Text>, NoMemory>
    ensures { IfOk result (λ some. some ≡ map decimal (numbers count)) }
{
    let mut some = Rows::new(alloc);
    for place in 0..count {
        let mut number = Text::new(alloc);
        number.add_number(place as u64 + 1)?;
        some.add(number)?;
    }
    Ok(some)
}

/// The numbers of the options that are chosen, in decimal digits.
#[tactic(auto, using(crate::proofs::InputsLemmas::Saying::map_chosen))]
fn chosen_numbers(alloc: Global, choice: &[bool]) -> Result<Rows<Text>, NoMemory>
    ensures { IfOk result (λ some. some
        ≡ map decimal (items_where_true choice.now (numbers (length choice.now)))) }
{
    let decimals = decimals(alloc, choice.len())?;
    chosen_texts(alloc, choice, decimals.as_slice())
}

/// `0`.
fn zero(alloc: Global) -> Result<Text, NoMemory>
    ensures { IfOk result (λ text. text ≡ codes "0") }
{
    Text::of(alloc, "0")
}

/// Joins numbers; none are `0`.
fn join_index(alloc: Global, numbers: &[Text]) -> Result<Text, NoMemory>
    ensures { IfOk result (λ text. text ≡ index_joined numbers.now) }
{
    match numbers {
        [] => zero(alloc),
        [_, ..] => join_all(alloc, numbers),
    }
}

/// The numbers of the options that are chosen, joined, and `0` for none.
pub(crate) fn index_text(alloc: Global, choice: &[bool]) -> Result<Text, NoMemory>
    ensures { IfOk result (λ text. text ≡ index_text choice.now) }
{
    let numbers = chosen_numbers(alloc, choice)?;
    join_index(alloc, numbers.as_slice())
}

/// The values of the options that are chosen, joined.
pub(crate) fn choice_text(
    alloc: Global,
    vars: &Vars,
    select: &View<'_>,
    choice: &[bool],
) -> Result<Text, NoMemory>
    ensures { IfOk result (λ text. text ≡ choice_text vars.now select.now choice.now) }
{
    let values = values_of(alloc, vars, select)?;
    let chosen = chosen_texts(alloc, choice, values.as_slice())?;
    join_all(alloc, chosen.as_slice())
}

/// A text, and the variable that an attribute names for it, if there is one.
pub(crate) fn set_under(
    alloc: Global,
    select: &View<'_>,
    name: AttrName,
    text: Text,
) -> Result<Option<(Text, Text)>, NoMemory>
    ensures { IfOk result (λ set. set ≡ option_map (under text) (variable_in name select.now)) }
{
    match variable_in(alloc, select, name)? {
        Some(name) => Ok(Some((name, text))),
        None => Ok(None),
    }
}
