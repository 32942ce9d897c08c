//! Elements and their content.
ghost use Rattle.std.specs.Prelude.{◌≡◌, OnOk};
ghost use Rattle.std.specs.List.{AllByRecursion};
ghost use Rattle.wap_wbxml.specs.spelling.Writings.{plain, ended};
ghost use Rattle.wap_wbxml.specs.spelling.Spelling.{bits, tag_spelling, kid_spelling};
ghost use Rattle.wap_wbxml.specs.spelling.Spelling.{element_spelling};
ghost use Rattle.wap_wbxml.specs.spelling.Spellable.{HasNoZero, FitsTag, FitsKid, FitsElement};
ghost use Rattle.wap_wbxml.specs.spelling.Written.{written};

use crate::spelling::attributes::{write_attributes, write_instruction};
use crate::spelling::output::Output;
use crate::spelling::table::Table;
use wap_base::NoMemory;
use wap_tokens::markup::{END, Element, Kid, LITERAL, Token};

/// Whether attributes follow a tag, bit 7, and whether content does, bit 6.
fn bits(element: &Element) -> u8
    ensures { result ≡ bits element.now }
{
    let attributes = if element.attrs.is_empty() { 0 } else { 128 };
    let content = if element.kids.is_empty() { 0 } else { 64 };
    attributes + content
}

/// Writes a tag.
fn write_tag(output: &mut Output, table: &Table, element: &Element) -> Result<(), NoMemory>
    requires { FitsTag HasNoZero element.now.tag }
    ensures { let bytes = tag_spelling table.now (bits element.now) element.now.tag in
        OnOk result (output.new ≡ written (plain bytes) output.old) }
{
    let follows = bits(element);
    match &element.tag {
        Token::Code(code) => output.push(*code + follows),
        Token::Literal(name) => output.write_number(LITERAL + follows, table.place_of(name)),
    }
}

/// Writes an element of so many levels at most.
#[cycle(elements)]
#[tactic(auto, unfolding(crate::specs::spelling::Spelling::element_spelling, crate::specs::spelling::Spellable::FitsElement))]
pub(crate) fn write_element(
    output: &mut Output,
    table: &Table,
    levels: u32,
    element: &Element,
) -> Result<(), NoMemory>
    requires { FitsElement HasNoZero levels element.now }
    ensures { let writing = element_spelling table.now levels element.now in
        OnOk result (output.new ≡ written writing output.old) }
{
    if levels == 0 {
        return Ok(());
    }
    output.go_to_tag_page(element.page)?;
    write_tag(output, table, element)?;
    write_attributes(output, table, element.attrs.as_slice())?;
    write_kids(output, table, levels - 1, element.kids.as_slice())?;
    Ok(())
}

/// Writes content, its elements of so many levels at most, and its end if there is any.
#[cycle(elements)]
fn write_kids(output: &mut Output, table: &Table, levels: u32, kids: &[Kid]) -> Result<(), NoMemory>
    requires { AllByRecursion (FitsKid HasNoZero (FitsElement HasNoZero levels)) kids.now }
    ensures { let spell = kid_spelling table.now (element_spelling table.now levels) in
        OnOk result (output.new ≡ written (ended spell kids.now) output.old) }
{
    for kid in kids {
        write_kid(output, table, levels, kid)?;
    }
    if kids.is_empty() {
        return Ok(());
    }
    output.push(END)?;
    Ok(())
}

/// Writes a part of content, an element of so many levels at most.
#[cycle(elements)]
fn write_kid(output: &mut Output, table: &Table, levels: u32, kid: &Kid) -> Result<(), NoMemory>
    requires { FitsKid HasNoZero (FitsElement HasNoZero levels) kid.now }
    ensures { let writing = kid_spelling table.now (element_spelling table.now levels) kid.now in
        OnOk result (output.new ≡ written writing output.old) }
{
    match kid {
        Kid::Element(element) => write_element(output, table, levels, element),
        Kid::Str(text) => output.write_text(text),
        Kid::Entity(number) => output.write_entity(*number),
        Kid::Var(name, conv) => output.write_variable(name, *conv),
        Kid::Ext(number) => output.write_extension(*number),
        Kid::Opaque(bytes) => output.write_opaque(bytes.as_slice()),
        Kid::Pi(attr) => write_instruction(output, table, attr),
    }
}
