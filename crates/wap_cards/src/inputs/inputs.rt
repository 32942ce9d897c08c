//! Inputs (WAP-191, section 11.6.3): which texts they take, and what they show.
ghost use Rattle.std.specs.Prelude.{◌≡◌, length, replicate, nat_le, true, IfOk};
ghost use Rattle.std.specs.Str.{chars};
ghost use Rattle.wap_base.specs.Ascii.{asterisk};
ghost use Rattle.std.specs.Option.{option_map_or};
ghost use Rattle.wap_mask.specs.Grammar.{any_text};
ghost use Rattle.wap_cardrules.specs.Values.{is_empty};
ghost use Rattle.wap_cardrules.specs.Inputs.{input_variable, input_text, input_mask};
ghost use Rattle.wap_cardrules.specs.Inputs.{is_short, takes, is_password, shown_text};

use crate::{is_filled, is_true, number_in, plain_value, text_under, value_if};
use std::alloc::Global;
use wap_base::{NoMemory, Text};
use wap_deck::good::{AttrName, View};
use wap_mask::Mask;
use wap_vars::Vars;

/// The variable of an input.
pub fn input_variable(alloc: Global, input: &View<'_>) -> Result<Text, NoMemory>
    ensures { IfOk result (λ name. name ≡ input_variable input.now) }
{
    match plain_value(alloc, input, AttrName::Name)? {
        Some(name) => Ok(name),
        None => Ok(Text::new(alloc)),
    }
}

/// The text of an input's variable; where that isn't set, the empty text.
fn input_text(alloc: Global, vars: &Vars, input: &View<'_>) -> Result<Text, NoMemory>
    ensures { IfOk result (λ text. text ≡ input_text vars.now input.now) }
{
    let name = input_variable(alloc, input)?;
    match text_under(alloc, vars, &name)? {
        Some(text) => Ok(text),
        None => Ok(Text::new(alloc)),
    }
}

/// The mask of any text.
fn any_mask(alloc: Global) -> Result<Mask, NoMemory>
    ensures { IfOk result (λ mask. mask ≡ any_text) }
{
    let text = Text::of(alloc, "*M")?;
    Mask::read(alloc, &text)
}

/// The mask of an input.
fn input_mask(alloc: Global, vars: &Vars, input: &View<'_>) -> Result<Mask, NoMemory>
    ensures { IfOk result (λ mask. mask ≡ input_mask vars.now input.now) }
{
    match value_if(alloc, vars, input, AttrName::Format)? {
        Some(format) => Mask::read(alloc, &format),
        None => any_mask(alloc),
    }
}

/// How many characters a text has.
fn characters_of(text: &str) -> usize
    ensures { result ≡ length (chars text.now) }
{
    text.chars().count()
}

/// Whether so many characters are at most so many, where there is such a number.
fn is_within(count: usize, most: Option<u64>) -> bool
    ensures { result ≡ option_map_or (nat_le count) most true }
{
    match most {
        Some(most) => count as u64 <= most,
        None => true,
    }
}

/// Whether an input takes so many characters as a text has.
#[tactic(auto, using(crate::proofs::InputsLemmas::Limits::within_limit))]
fn is_short(alloc: Global, vars: &Vars, input: &View<'_>, text: &Text) -> Result<bool, NoMemory>
    ensures { IfOk result (λ is_so. is_so ≡ is_short vars.now input.now text.now) }
{
    match value_if(alloc, vars, input, AttrName::Maxlength)? {
        Some(most) => Ok(is_within(characters_of(text.as_str()), number_in(&most))),
        None => Ok(true),
    }
}

/// Whether a text is empty.
fn is_empty(text: &Text) -> bool
    ensures { result ≡ is_empty text.now }
{
    text.is_empty()
}

/// Whether an input takes a text.
pub(crate) fn takes(
    alloc: Global,
    vars: &Vars,
    input: &View<'_>,
    text: &Text,
) -> Result<bool, NoMemory>
    ensures { IfOk result (λ is_so. is_so ≡ takes vars.now input.now text.now) }
{
    let mask = input_mask(alloc, vars, input)?;
    let is_short = is_short(alloc, vars, input, text)?;
    let may_be_empty = is_true(alloc, input, AttrName::Emptyok)?;
    Ok((mask.takes(text) && is_short) || (is_empty(text) && may_be_empty))
}

/// A star for each character of a text.
fn stars(alloc: Global, text: &str) -> Result<Text, NoMemory>
    ensures { IfOk result (λ stars. stars ≡ replicate (length (chars text.now)) asterisk) }
{
    let count = characters_of(text);
    let mut stars = Text::new(alloc);
    for column in 0..count {
        stars.push('*')?;
    }
    Ok(stars)
}

/// Whether an input hides its text.
fn is_password(alloc: Global, vars: &Vars, input: &View<'_>) -> Result<bool, NoMemory>
    ensures { IfOk result (λ is_so. is_so ≡ is_password vars.now input.now) }
{
    is_filled(alloc, vars, input, AttrName::Type, "password")
}

/// What an input shows: the text of its variable, of a password a star for each character.
pub fn shown_text(alloc: Global, vars: &Vars, input: &View<'_>) -> Result<Text, NoMemory>
    ensures { IfOk result (λ text. text ≡ shown_text vars.now input.now) }
{
    let text = input_text(alloc, vars, input)?;
    if is_password(alloc, vars, input)? {
        stars(alloc, text.as_str())
    } else {
        Ok(text)
    }
}
