//! Attributes and processing instructions.
ghost use Rattle.std.specs.Prelude.{◌≡◌, OnOk};
ghost use Rattle.std.specs.List.{AllByRecursion};
ghost use Rattle.wap_wbxml.specs.spelling.Writings.{plain, each, ended};
ghost use Rattle.wap_wbxml.specs.spelling.Spelling.{start_spelling, piece_spelling};
ghost use Rattle.wap_wbxml.specs.spelling.Spelling.{attr_spelling, instruction_spelling};
ghost use Rattle.wap_wbxml.specs.spelling.Spellable.{HasNoZero, FitsPiece, FitsAttr};
ghost use Rattle.wap_wbxml.specs.spelling.Written.{written};

use crate::spelling::output::Output;
use crate::spelling::table::Table;
use wap_base::NoMemory;
use wap_tokens::markup::{Attr, END, LITERAL, PI, Piece, Token};

/// Writes the start of an attribute.
fn write_start(output: &mut Output, table: &Table, start: &Token) -> Result<(), NoMemory>
    ensures { let bytes = start_spelling table.now start.now in
        OnOk result (output.new ≡ written (plain bytes) output.old) }
{
    match start {
        Token::Code(code) => output.push(*code),
        Token::Literal(name) => output.write_number(LITERAL, table.place_of(name)),
    }
}

/// Writes a code on a page.
fn write_code(output: &mut Output, page: u8, code: u8) -> Result<(), NoMemory>
    ensures { let writing = piece_spelling (Piece.Code page code) in
        OnOk result (output.new ≡ written writing output.old) }
{
    output.go_to_attribute_page(page)?;
    output.push(code)?;
    Ok(())
}

/// Writes a part of a value.
fn write_piece(output: &mut Output, piece: &Piece) -> Result<(), NoMemory>
    requires { FitsPiece HasNoZero piece.now }
    ensures { OnOk result (output.new ≡ written (piece_spelling piece.now) output.old) }
{
    match piece {
        Piece::Code(page, code) => write_code(output, *page, *code),
        Piece::Str(text) => output.write_text(text),
        Piece::Entity(number) => output.write_entity(*number),
        Piece::Var(name, conv) => output.write_variable(name, *conv),
        Piece::Ext(number) => output.write_extension(*number),
        Piece::Opaque(bytes) => output.write_opaque(bytes.as_slice()),
    }
}

/// Writes the parts of a value.
fn write_pieces(output: &mut Output, pieces: &[Piece]) -> Result<(), NoMemory>
    requires { AllByRecursion (FitsPiece HasNoZero) pieces.now }
    ensures { OnOk result (output.new ≡ written (each piece_spelling pieces.now) output.old) }
{
    for piece in pieces {
        write_piece(output, piece)?;
    }
    Ok(())
}

/// Writes an attribute.
fn write_attribute(output: &mut Output, table: &Table, attr: &Attr) -> Result<(), NoMemory>
    requires { FitsAttr HasNoZero attr.now }
    ensures { OnOk result (output.new ≡ written (attr_spelling table.now attr.now) output.old) }
{
    output.go_to_attribute_page(attr.page)?;
    write_start(output, table, &attr.start)?;
    write_pieces(output, attr.value.as_slice())?;
    Ok(())
}

/// Writes a processing instruction.
pub(crate) fn write_instruction(
    output: &mut Output,
    table: &Table,
    attr: &Attr,
) -> Result<(), NoMemory>
    requires { FitsAttr HasNoZero attr.now }
    ensures { let writing = instruction_spelling table.now attr.now in
        OnOk result (output.new ≡ written writing output.old) }
{
    output.push(PI)?;
    write_attribute(output, table, attr)?;
    output.push(END)?;
    Ok(())
}

/// Writes attributes, and their end if there are any.
pub(crate) fn write_attributes(
    output: &mut Output,
    table: &Table,
    attrs: &[Attr],
) -> Result<(), NoMemory>
    requires { AllByRecursion (FitsAttr HasNoZero) attrs.now }
    ensures { let writing = ended (attr_spelling table.now) attrs.now in
        OnOk result (output.new ≡ written writing output.old) }
{
    for attr in attrs {
        write_attribute(output, table, attr)?;
    }
    if attrs.is_empty() {
        return Ok(());
    }
    output.push(END)?;
    Ok(())
}
