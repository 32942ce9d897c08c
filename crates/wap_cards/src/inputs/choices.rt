//! Which options of a select are chosen (WAP-191, section 11.6.2).
ghost use Rattle.std.specs.Prelude.{◌≡◌, ◌==◌, ◌<◌, ◌++◌, [], ◌∷◌, ℕ, List, map};
ghost use Rattle.std.specs.Prelude.{length, codes, if◌then◌else◌, IfOk, OnOk};
ghost use Rattle.std.specs.List.{list_any, enumerate_from};
ghost use Rattle.std.specs.Option.{option_and_then, option_or};
ghost use Rattle.wap_base.specs.Texts.{is_same_text};
ghost use Rattle.wap_base.specs.Ascii.{digit_zero};
ghost use Rattle.wap_base.specs.Cuts.{begins_with};
ghost use Rattle.wap_vars.specs.Variables.{text_of};
ghost use Rattle.wap_cardrules.specs.Values.{value_if, variable_in};
ghost use Rattle.wap_cardrules.specs.Selects.{options_of, is_multiple, pieces_of, chosen};
ghost use Rattle.wap_cardrules.specs.Selects.{number_of, numbers_in, numbers_of, choice_if};
ghost use Rattle.wap_cardrules.specs.Selects.{iname_of, name_of};
ghost use Rattle.wap_cardrules.specs.Selects.{choice_by_index, choice_by_value, first_choice};
ghost use Rattle.wap_cardrules.specs.Selects.{choice_of, turned_if, choice_with};
ghost use Rattle.wap_cards.specs.inputs.inside.Marking.{marked, number_if};

use crate::inputs::options::{options_of, values_of};
use crate::inputs::pieces::pieces_of;
use crate::{Texts, is_true, is_word, number_in, text_under, value_if, variable_in};
use std::alloc::Global;
use wap_base::{NoMemory, Rows, Text};
use wap_deck::good::{AttrName, View};
use wap_vars::Vars;

/// How many options a select has; what lists them has fewer than the greatest number of its type.
fn count_of(alloc: Global, select: &View<'_>) -> Result<usize, NoMemory>
    ensures count { IfOk result (λ count. count ≡ length (options_of select.now)) }
    ensures small { IfOk result (λ count. count < usize.MAX) }
{
    let options = options_of(alloc, select)?;
    Ok(options.as_slice().len())
}

/// Whether several options of a select may be chosen.
pub(crate) fn is_multiple(alloc: Global, select: &View<'_>) -> Result<bool, NoMemory>
    ensures { IfOk result (λ is_so. is_so ≡ is_multiple select.now) }
{
    is_true(alloc, select, AttrName::Multiple)
}

/// So many options, none of them chosen.
#[tactic(auto, using(crate::proofs::InputsLemmas::Marking::none_more))]
fn empty_choice(alloc: Global, count: usize) -> Result<Vec<bool>, NoMemory>
    ensures { IfOk result (λ choice. choice.items ≡ chosen count []) }
{
    let mut choice = Vec::new(alloc);
    for place in 0..count {
        choice.push(false)?;
    }
    Ok(choice)
}

/// Marks the option of a number, if there is one, as chosen.
fn mark(choice: &mut Vec<bool>, number: usize)
    ensures { choice.new.items ≡ marked number choice.old.items }
{
    if number > 0 && number <= choice.len() {
        choice[number - 1] = true;
    }
}

/// Chooses the options of these numbers, of so many.
fn choose_numbers(alloc: Global, count: usize, numbers: &[usize]) -> Result<Rows<bool>, NoMemory>
    ensures { IfOk result (λ choice. choice ≡ chosen count numbers.now) }
{
    let mut choice = empty_choice(alloc, count)?;
    for number in numbers {
        mark(&mut choice, *number);
    }
    Ok(Rows::from_vec(choice))
}

/// Whether bytes begin with the digit 0.
fn begins_with_zero(bytes: &[u8]) -> bool
    ensures { result ≡ begins_with (λ c. c == digit_zero) bytes.now }
{
    match bytes {
        [first, ..] => *first == b'0',
        [] => false,
    }
}

/// The number of an option, of so many.
fn number_of(count: usize, piece: &Text) -> Option<usize>
    requires { count < usize.MAX }
    ensures { result ≡ number_of count piece.now }
{
    let number = number_in(piece)?;
    if number > count as u64 {
        return None;
    }
    if begins_with_zero(piece.as_str().as_bytes()) {
        return None;
    }
    Some(number as usize)
}

/// The numbers in an index text, of so many options.
fn numbers_in(alloc: Global, count: usize, text: &Text) -> Result<Rows<usize>, NoMemory>
    requires { count < usize.MAX }
    ensures { IfOk result (λ numbers. numbers ≡ numbers_in count text.now) }
{
    let pieces = pieces_of(alloc, text.as_str())?;
    let mut numbers = Rows::new(alloc);
    for piece in pieces.as_slice() {
        if let Some(number) = number_of(count, piece) {
            numbers.add(number)?;
        }
    }
    Ok(numbers)
}

/// Appends the number of a value that is among some texts.
fn add_number(
    some: &Texts,
    value: &Text,
    number: usize,
    numbers: &mut Rows<usize>,
) -> Result<(), NoMemory>
    ensures { OnOk result (numbers.new ≡ numbers.old
        ++ number_if (list_any (is_same_text value.now) some.now) number) }
{
    if some.has(value) {
        numbers.add(number)?;
    }
    Ok(())
}

/// The numbers of the values that are among some texts.
#[tactic(auto, using(crate::proofs::InputsLemmas::Marking::numbers_next))]
fn numbers_of(alloc: Global, texts: &[Text], values: &[Text]) -> Result<Rows<usize>, NoMemory>
    ensures { IfOk result (λ numbers. numbers ≡ numbers_of texts.now values.now) }
{
    let some = texts_of(alloc, texts)?;
    let mut numbers = Rows::new(alloc);
    for (place, value) in values.iter().enumerate() {
        add_number(&some, value, place + 1, &mut numbers)?;
    }
    Ok(numbers)
}

/// The choice of the numbers that count: all, or the first; none is no choice.
fn choice_if(
    alloc: Global,
    multiple: bool,
    count: usize,
    numbers: &[usize],
) -> Result<Option<Rows<bool>>, NoMemory>
    ensures { IfOk result (λ choice. choice ≡ choice_if multiple count numbers.now) }
{
    match numbers {
        [] => Ok(None),
        [first, ..] => {
            if multiple {
                Ok(Some(choose_numbers(alloc, count, numbers)?))
            } else {
                Ok(Some(choose_numbers(alloc, count, &[*first])?))
            }
        }
    }
}

/// Whether a text is `0`.
fn is_zero(text: &Text) -> bool
    ensures { result ≡ is_same_text text.now (codes "0") }
{
    is_word(Some(text), "0")
}

/// What an index text chooses; in a multiple select `0` chooses nothing.
fn choice_by_index(
    alloc: Global,
    select: &View<'_>,
    text: &Text,
) -> Result<Option<Rows<bool>>, NoMemory>
    ensures { IfOk result (λ choice. choice ≡ choice_by_index select.now text.now) }
{
    let count = count_of(alloc, select)?;
    let multiple = is_multiple(alloc, select)?;
    if multiple && is_zero(text) {
        return Ok(Some(choose_numbers(alloc, count, &[])?));
    }
    let numbers = numbers_in(alloc, count, text)?;
    choice_if(alloc, multiple, count, numbers.as_slice())
}

/// Some texts, to look among them.
fn texts_of(alloc: Global, texts: &[Text]) -> Result<Texts, NoMemory>
    ensures { IfOk result (λ some. (one : List ℕ)
        → list_any (is_same_text one) some ≡ list_any (is_same_text one) texts.now) }
{
    let mut some = Texts::new(alloc);
    for text in texts {
        some.add(text.copy(alloc)?)?;
    }
    Ok(some)
}

/// The texts for which a value text looks: a multiple select splits it at `;`.
fn wanted_texts(alloc: Global, multiple: bool, text: &Text) -> Result<Rows<Text>, NoMemory>
    ensures { IfOk result (λ texts. texts
        ≡ (if multiple then pieces_of text.now else text.now ∷ [])) }
{
    if multiple {
        return pieces_of(alloc, text.as_str());
    }
    let mut texts = Rows::new(alloc);
    texts.add(text.copy(alloc)?)?;
    Ok(texts)
}

/// What a value text chooses.
fn choice_by_value(
    alloc: Global,
    vars: &Vars,
    select: &View<'_>,
    text: &Text,
) -> Result<Option<Rows<bool>>, NoMemory>
    ensures { IfOk result (λ choice. choice ≡ choice_by_value vars.now select.now text.now) }
{
    let multiple = is_multiple(alloc, select)?;
    let wanted = wanted_texts(alloc, multiple, text)?;
    let values = values_of(alloc, vars, select)?;
    let numbers = numbers_of(alloc, wanted.as_slice(), values.as_slice())?;
    choice_if(alloc, multiple, values.len(), numbers.as_slice())
}

/// What is chosen where no text chooses: the first option, or nothing in a multiple select.
fn first_choice(alloc: Global, select: &View<'_>) -> Result<Rows<bool>, NoMemory>
    ensures { IfOk result (λ choice. choice ≡ first_choice select.now) }
{
    let count = count_of(alloc, select)?;
    if is_multiple(alloc, select)? {
        choose_numbers(alloc, count, &[])
    } else {
        choose_numbers(alloc, count, &[1])
    }
}

/// The text of the variable that an attribute names, where it is set.
fn kept_text(
    alloc: Global,
    vars: &Vars,
    select: &View<'_>,
    name: AttrName,
) -> Result<Option<Text>, NoMemory>
    ensures { IfOk result (λ text. text
        ≡ option_and_then (text_of vars.now) (variable_in name select.now)) }
{
    match variable_in(alloc, select, name)? {
        Some(variable) => text_under(alloc, vars, &variable),
        None => Ok(None),
    }
}

/// What an index text chooses, if there is one.
fn by_index(
    alloc: Global,
    select: &View<'_>,
    text: Option<Text>,
) -> Result<Option<Rows<bool>>, NoMemory>
    ensures { IfOk result (λ choice. choice ≡ option_and_then (choice_by_index select.now) text) }
{
    match text {
        Some(text) => choice_by_index(alloc, select, &text),
        None => Ok(None),
    }
}

/// What a value text chooses, if there is one.
fn by_value(
    alloc: Global,
    vars: &Vars,
    select: &View<'_>,
    text: Option<Text>,
) -> Result<Option<Rows<bool>>, NoMemory>
    ensures { IfOk result (λ choice. choice
        ≡ option_and_then (choice_by_value vars.now select.now) text) }
{
    match text {
        Some(text) => choice_by_value(alloc, vars, select, &text),
        None => Ok(None),
    }
}

/// What the variables of a select choose: that of `iname`, or else that of `name`.
fn kept_choice(
    alloc: Global,
    vars: &Vars,
    select: &View<'_>,
) -> Result<Option<Rows<bool>>, NoMemory>
    ensures { IfOk result (λ choice. choice ≡ option_or
        (option_and_then (choice_by_index select.now)
        (option_and_then (text_of vars.now) (iname_of select.now)))
        (option_and_then (choice_by_value vars.now select.now)
        (option_and_then (text_of vars.now) (name_of select.now)))) }
{
    let text = kept_text(alloc, vars, select, AttrName::Iname)?;
    if let Some(choice) = by_index(alloc, select, text)? {
        return Ok(Some(choice));
    }
    let text = kept_text(alloc, vars, select, AttrName::Name)?;
    by_value(alloc, vars, select, text)
}

/// What the attributes of a select choose: `ivalue`, or else `value`.
fn given_choice(
    alloc: Global,
    vars: &Vars,
    select: &View<'_>,
) -> Result<Option<Rows<bool>>, NoMemory>
    ensures { IfOk result (λ choice. choice ≡ option_or
        (option_and_then (choice_by_index select.now)
        (value_if vars.now AttrName.Ivalue select.now))
        (option_and_then (choice_by_value vars.now select.now)
        (value_if vars.now AttrName.Value select.now))) }
{
    let text = value_if(alloc, vars, select, AttrName::Ivalue)?;
    if let Some(choice) = by_index(alloc, select, text)? {
        return Ok(Some(choice));
    }
    let text = value_if(alloc, vars, select, AttrName::Value)?;
    by_value(alloc, vars, select, text)
}

/// The options of a select that are chosen: by the first of four texts that chooses, the variable
/// of `iname`, that of `name`, `ivalue` and `value`. The answer says of each option whether it is
/// chosen.
#[tactic(auto, using(crate::proofs::InputsLemmas::Search::search_of))]
pub fn choice_of(alloc: Global, vars: &Vars, select: &View<'_>) -> Result<Rows<bool>, NoMemory>
    ensures { IfOk result (λ choice. choice ≡ choice_of vars.now select.now) }
{
    if let Some(choice) = kept_choice(alloc, vars, select)? {
        return Ok(choice);
    }
    match given_choice(alloc, vars, select)? {
        Some(choice) => Ok(choice),
        None => first_choice(alloc, select),
    }
}

/// Turns whether an option is chosen, if it is the one.
fn turn_if(is_it: bool, is_chosen: bool) -> bool
    ensures { result ≡ turned_if is_it is_chosen }
{
    if is_it { !is_chosen } else { is_chosen }
}

/// Turns whether the option of a number, from 1, is chosen.
fn turn_option(alloc: Global, choice: &[bool], number: usize) -> Result<Rows<bool>, NoMemory>
    ensures { IfOk result (λ turned. turned
        ≡ map (λ one. turned_if (one.0 == number) one.1) (enumerate_from 1 choice.now)) }
{
    let mut turned = Rows::new(alloc);
    for (place, is_chosen) in choice.iter().enumerate() {
        turned.add(turn_if(place + 1 == number, *is_chosen))?;
    }
    Ok(turned)
}

/// A choice with the option of a number: in a multiple select chosen or no longer, else alone.
pub(crate) fn choice_with(
    alloc: Global,
    select: &View<'_>,
    choice: &[bool],
    number: usize,
) -> Result<Rows<bool>, NoMemory>
    ensures { IfOk result (λ new. new ≡ choice_with select.now choice.now number) }
{
    if is_multiple(alloc, select)? {
        turn_option(alloc, choice, number)
    } else {
        choose_numbers(alloc, choice.len(), &[number])
    }
}
