//! Attributes.
ghost use Rattle.std.specs.Prelude.{◌≡◌, [], map, OnOk};
ghost use Rattle.std.specs.List.{AllByRecursion};
ghost use Rattle.wap_tokens.specs.markup.Tables.{code_of_start};
ghost use Rattle.wap_tokens.specs.markup.Writing.{attr_of, whole_code};
ghost use Rattle.wap_wbxml.specs.spelling.Characters.{OfAttr};
ghost use Rattle.wap_wbxml.specs.spelling.Writings.{ended};
ghost use Rattle.wap_wbxml.specs.spelling.Spelling.{attr_spelling};
ghost use Rattle.wap_wbxml.specs.spelling.Written.{written};

use crate::writing::texts::write_parts;
use std::alloc::Global;
use wap_base::{NoMemory, Part, Rows, Text};
use wap_tokens::markup::{AttrName, END, LITERAL};
use wap_tokens::{code_of_start, name_of_attr};
use wap_wbxml::spelling::{Output, Table};

/// The code of an attribute with nothing before its value.
pub(crate) fn own_code(name: AttrName) -> Option<u8>
    ensures { result ≡ code_of_start (name, []) }
{
    code_of_start(name, "")
}

/// The code of an attribute and its whole value, if there is one.
pub(crate) fn whole_code(name: AttrName, parts: &[Part]) -> Option<u8>
    ensures { result ≡ whole_code name parts.now }
{
    match parts {
        [] => code_of_start(name, ""),
        [Part::Lit(text)] => code_of_start(name, text.as_str()),
        _ => None,
    }
}

/// Writes an attribute: by its own code and its value, by the code of its whole value, or by its
/// name and its value.
fn write_attribute(
    alloc: Global,
    output: &mut Output,
    table: &Table,
    attribute: &(AttrName, Rows<Part>),
) -> Result<(), NoMemory>
    ensures written { let writing = attr_spelling table.now (attr_of attribute.now) in
        OnOk result (output.new ≡ written writing output.old) }
    ensures characters { OnOk result (OfAttr attribute.now) }
{
    output.go_to_attribute_page(0)?;
    let name = attribute.0;
    let parts = attribute.1.as_slice();
    if let Some(code) = own_code(name) {
        output.push(code)?;
        write_parts(alloc, output, parts)?;
        return Ok(());
    }
    if let Some(code) = whole_code(name, parts) {
        output.push(code)?;
        return Ok(());
    }
    let text = Text::of(alloc, name_of_attr(name))?;
    output.write_number(LITERAL, table.place_of(&text))?;
    write_parts(alloc, output, parts)?;
    Ok(())
}

/// Writes attributes, and their end if there are any.
pub(crate) fn write_attributes(
    alloc: Global,
    output: &mut Output,
    table: &Table,
    attributes: &[(AttrName, Rows<Part>)],
) -> Result<(), NoMemory>
    ensures written { let writing = ended (attr_spelling table.now) (map attr_of attributes.now) in
        OnOk result (output.new ≡ written writing output.old) }
    ensures characters { OnOk result (AllByRecursion OfAttr attributes.now) }
{
    for attribute in attributes {
        write_attribute(alloc, output, table, attribute)?;
    }
    if attributes.is_empty() {
        return Ok(());
    }
    output.push(END)?;
    Ok(())
}
