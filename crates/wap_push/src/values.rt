//! The texts of attributes' values.
ghost use Rattle.std.specs.Prelude.{◌≡◌, ◌++◌, IfOk, OnOk};
ghost use Rattle.std.specs.List.{flat_map};
ghost use Rattle.wap_push.specs.Fields.{character, piece_text, value_text};

use crate::codes::{start_in, value_of};
use std::alloc::Global;
use wap_base::{NoMemory, Text};
use wap_tokens::markup::{Attr, Piece};

/// Appends a character by its number, if it is one.
pub(crate) fn add_character(text: &mut Text, number: u32) -> Result<(), NoMemory>
    ensures { OnOk result (text.new ≡ text.old ++ character number) }
{
    match char::from_u32(number) {
        Some(character) => text.push(character),
        None => Ok(()),
    }
}

/// Appends the text of a code on a page.
fn add_code(text: &mut Text, page: u8, code: u8) -> Result<(), NoMemory>
    ensures { OnOk result (text.new ≡ text.old ++ piece_text (Piece.Code page code)) }
{
    match value_of(page, code) {
        Some(part) => text.add(part),
        None => Ok(()),
    }
}

/// Appends the text of a part of a value.
fn add_piece(text: &mut Text, piece: &Piece) -> Result<(), NoMemory>
    ensures { OnOk result (text.new ≡ text.old ++ piece_text piece.now) }
{
    match piece {
        Piece::Code(page, code) => add_code(text, *page, *code),
        Piece::Str(string) => text.add(string.as_str()),
        Piece::Entity(number) => add_character(text, *number),
        Piece::Var(_, _) | Piece::Ext(_) | Piece::Opaque(_) => Ok(()),
    }
}

/// Appends the texts of parts of a value.
fn add_pieces(text: &mut Text, pieces: &[Piece]) -> Result<(), NoMemory>
    ensures { OnOk result (text.new ≡ text.old ++ flat_map piece_text pieces.now) }
{
    for piece in pieces {
        add_piece(text, piece)?;
    }
    Ok(())
}

/// The text of an attribute's value.
pub(crate) fn value_text(alloc: Global, attr: &Attr) -> Result<Text, NoMemory>
    ensures { IfOk result (λ text. text ≡ value_text attr.now) }
{
    let mut text = Text::new(alloc);
    if let Some((_, begin)) = start_in(attr.page, &attr.start) {
        text.add(begin)?;
    }
    add_pieces(&mut text, attr.value.as_slice())?;
    Ok(text)
}
