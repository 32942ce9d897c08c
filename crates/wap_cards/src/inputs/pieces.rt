//! Texts that are joined by `;`.
ghost use Rattle.std.specs.Prelude.{◌≡◌, ◌==◌, IfOk};
ghost use Rattle.std.specs.Str.{chars};
ghost use Rattle.wap_base.specs.Ascii.{semicolon};
ghost use Rattle.wap_cardrules.specs.Selects.{pieces_of, joined};

use std::alloc::Global;
use wap_base::{NoMemory, Rows, Text};

fn is_semicolon(character: char) -> bool
    ensures { result ≡ (character == semicolon) }
{
    character == ';'
}

/// What stands between the semicolons of a text.
#[tactic(auto, using(crate::proofs::InputsLemmas::Splitting::pieces_start))]
pub(crate) fn pieces_of(alloc: Global, text: &str) -> Result<Rows<Text>, NoMemory>
    ensures { IfOk result (λ pieces. pieces ≡ pieces_of (chars text.now)) }
{
    let mut pieces = Rows::new(alloc);
    let mut piece = Text::new(alloc);
    for character in text.chars() {
        if is_semicolon(character) {
            pieces.add(piece)?;
            piece = Text::new(alloc);
        } else {
            piece.push(character)?;
        }
    }
    pieces.add(piece)?;
    Ok(pieces)
}

/// Joins texts by semicolons.
pub(crate) fn join_all(alloc: Global, texts: &[Text]) -> Result<Text, NoMemory>
    ensures { IfOk result (λ whole. whole ≡ joined texts.now) }
{
    let mut whole = Text::new(alloc);
    for (place, text) in texts.iter().enumerate() {
        if place > 0 {
            whole.push(';')?;
        }
        whole.add(text.as_str())?;
    }
    Ok(whole)
}
