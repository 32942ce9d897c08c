//! The strings of a text, between its U+0000.
ghost use Rattle.std.specs.Prelude.{◌≡◌, ℕ, [], ◌∷◌, ◌++◌, Some, IfOk, OnOk, IsTrue, ◌↔◌};
ghost use Rattle.std.specs.Str.{chars};
ghost use Rattle.wap_tokens.specs.markup.Writing.{runs_of};
ghost use Rattle.wap_deck.specs.documents.inside.Adding.{has_zero, string_after, character_after};

use std::alloc::Global;
use wap_base::{NoMemory, Rows, Text};

/// A string that goes on, or a new one after a U+0000. What is said is what strings with one
/// character more are.
fn string_from(
    alloc: Global,
    last: Option<Text>,
    runs: &mut Rows<Option<Text>>,
) -> Result<Text, NoMemory>
    ensures { IfOk result (λ text. (c : ℕ) →
        runs.old ++ string_after (last ∷ []) c ≡ runs.new ++ Some (text ++ c ∷ []) ∷ []) }
{
    match last {
        Some(text) => Ok(text),
        None => {
            runs.add(None)?;
            Ok(Text::new(alloc))
        }
    }
}

/// Takes the string at the end off, or begins one. What is said is what strings with one character
/// more are.
fn last_string(alloc: Global, runs: &mut Rows<Option<Text>>) -> Result<Text, NoMemory>
    ensures { IfOk result (λ text. (c : ℕ) →
        string_after runs.old c ≡ runs.new ++ Some (text ++ c ∷ []) ∷ []) }
{
    match runs.pop() {
        Some(last) => Ok(string_from(alloc, last, runs)?),
        None => Ok(Text::new(alloc)),
    }
}

/// Adds a character to the string at the end.
fn add_to_string(
    alloc: Global,
    runs: &mut Rows<Option<Text>>,
    character: char,
) -> Result<(), NoMemory>
    ensures { OnOk result (runs.new ≡ string_after runs.old character) }
{
    let mut text = last_string(alloc, runs)?;
    text.push(character)?;
    runs.add(Some(text))?;
    Ok(())
}

/// Adds a character.
fn add_character(
    alloc: Global,
    runs: &mut Rows<Option<Text>>,
    character: char,
) -> Result<(), NoMemory>
    ensures { OnOk result (runs.new ≡ character_after runs.old character) }
{
    if character == '\0' {
        runs.add(None)?;
    } else {
        add_to_string(alloc, runs, character)?;
    }
    Ok(())
}

/// The strings of some UTF-8, and nothing for each U+0000, which no string has.
pub(crate) fn runs_in(alloc: Global, text: &str) -> Result<Rows<Option<Text>>, NoMemory>
    ensures { IfOk result (λ runs. runs ≡ runs_of (chars text.now)) }
{
    let mut runs = Rows::new(alloc);
    for character in text.chars() {
        add_character(alloc, &mut runs, character)?;
    }
    Ok(runs)
}

/// Whether one of the bytes is 0.
fn have_zero(bytes: &[u8]) -> bool
    ensures { result ≡ has_zero bytes.now }
{
    bytes.iter().any(|byte| *byte == 0)
}

/// Whether a text has a U+0000. Its bytes tell, since those of other characters are none.
fn has_zero(text: &Text) -> bool
    ensures { result ≡ has_zero text.now }
{
    have_zero(text.as_str().as_bytes())
}

/// Whether a text is one string, which most are.
#[tactic(auto, using(crate::proofs::DocumentsLemmas::Strings::string_has_some))]
pub(crate) fn is_string(text: &Text) -> bool
    ensures { IsTrue result ↔ (runs_of text.now ≡ Some text.now ∷ []) }
{
    !text.is_empty() && !has_zero(text)
}
