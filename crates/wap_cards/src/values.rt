//! Values of attributes that hold no reference (WAP-191, section 11).
ghost use Rattle.std.specs.Prelude.{◌≡◌, IfOk};
ghost use Rattle.std.specs.Option.{option_copied};
ghost use Rattle.std.specs.Str.{chars};
ghost use Rattle.wap_tokens.specs.markup.Trees.{plain_text, plain_value, is_text};
ghost use Rattle.wap_cardrules.specs.Values.{is_true, variable_in};

use std::alloc::Global;
use wap_base::{NoMemory, Text};
use wap_deck::good::{AttrName, Bit, Run, View};

/// The text of a value, if it holds no reference.
#[tactic(auto, using(crate::proofs::FilledValues::plain_first))]
pub(crate) fn plain_text(alloc: Global, run: Run<'_>) -> Result<Option<Text>, NoMemory>
    ensures { IfOk result (λ text. text ≡ plain_text run.entry) }
{
    let mut whole = Text::new(alloc);
    for bit in run {
        match bit {
            Bit::Slice(text) => whole.add(text)?,
            Bit::Char(character) => whole.push(character)?,
            Bit::Var(_, _) => return Ok(None),
        }
    }
    Ok(Some(whole))
}

/// The text of an attribute's value, if there is the attribute and it holds no reference.
pub fn plain_value(alloc: Global, view: &View<'_>, name: AttrName) -> Result<Option<Text>, NoMemory>
    ensures { IfOk result (λ text. text ≡ plain_value name view.now) }
{
    match view.attr(name) {
        Some(value) => plain_text(alloc, value),
        None => Ok(None),
    }
}

/// Whether there is a text, and it is this word.
pub fn is_word(text: Option<&Text>, word: &str) -> bool
    ensures { result ≡ is_text (chars word.now) (option_copied text.entry) }
{
    match text {
        Some(text) => text.as_str() == word,
        None => false,
    }
}

/// Whether an attribute is `true`.
pub fn is_true(alloc: Global, view: &View<'_>, name: AttrName) -> Result<bool, NoMemory>
    ensures { IfOk result (λ is_so. is_so ≡ is_true name view.now) }
{
    let value = plain_value(alloc, view, name)?;
    Ok(is_word(value.as_ref(), "true"))
}

/// The name of a variable that an attribute says; the empty name is none.
pub fn variable_in(alloc: Global, view: &View<'_>, name: AttrName) -> Result<Option<Text>, NoMemory>
    ensures { IfOk result (λ text. text ≡ variable_in name view.now) }
{
    match plain_value(alloc, view, name)? {
        Some(text) if !text.is_empty() => Ok(Some(text)),
        _ => Ok(None),
    }
}
