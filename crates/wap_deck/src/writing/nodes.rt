//! Nodes and their content.
ghost use Rattle.std.specs.Prelude.{◌≡◌, ◌+◌, suc, OnOk};
ghost use Rattle.std.specs.List.{AllByRecursion};
ghost use Rattle.wap_tokens.specs.markup.Writing.{item_kids, items_kids, node_kids, element_of};
ghost use Rattle.wap_wbxml.specs.spelling.Characters.{OfOpened, OfNode};
ghost use Rattle.wap_wbxml.specs.spelling.Writings.{each, ended};
ghost use Rattle.wap_wbxml.specs.spelling.Spelling.{bit, kid_spelling, element_spelling};
ghost use Rattle.wap_wbxml.specs.spelling.Written.{written};
ghost use Rattle.wap_deck.specs.writing.inside.WrittenTexts.{content_bit, has_any};

use crate::writing::attributes::write_attributes;
use crate::writing::texts::{have_content, write_parts};
use std::alloc::Global;
use wap_base::NoMemory;
use wap_tokens::code_of;
use wap_tokens::markup::{END, Item, Node};
use wap_wbxml::spelling::{Output, Table};

/// Whether an item, a node with so many levels, gives content.
fn gives(levels: u32, item: &Item) -> bool
    ensures { result ≡ has_any (item_kids (node_kids levels) item.now) }
{
    match item {
        Item::Text(parts) => have_content(parts.as_slice()),
        Item::Node(_) => levels > 0,
    }
}

/// Whether one of some items does.
fn give_content(levels: u32, items: &[Item]) -> bool
    ensures { result ≡ has_any (items_kids (node_kids levels) items.now) }
{
    for item in items {
        if gives(levels, item) {
            return true;
        }
    }
    false
}

/// Whether attributes follow a tag, bit 7, and whether content does, bit 6.
fn bits(node: &Node, content: bool) -> u8
    ensures { result ≡ bit 128 node.now.attrs + content_bit content }
{
    let attributes = if node.attrs.is_empty() { 0 } else { 128 };
    let content = if content { 64 } else { 0 };
    attributes + content
}

/// Writes a node, with so many levels of nodes in it.
#[cycle(nodes)]
pub(crate) fn write_node(
    alloc: Global,
    output: &mut Output,
    table: &Table,
    levels: u32,
    node: &Node,
) -> Result<(), NoMemory>
    ensures written { let kids = items_kids (node_kids levels) node.now.kids in
        let writing = element_spelling table.now (suc levels) (element_of node.now kids) in
        OnOk result (output.new ≡ written writing output.old) }
    ensures characters { OnOk result (OfNode (suc levels) node.now) }
{
    let items = node.kids.as_slice();
    output.go_to_tag_page(0)?;
    output.push(code_of(node.tag) + bits(node, give_content(levels, items)))?;
    write_attributes(alloc, output, table, node.attrs.as_slice())?;
    write_content(alloc, output, table, levels, items)?;
    Ok(())
}

/// Writes content, its nodes with so many levels, and its end if there is any.
#[cycle(nodes)]
fn write_content(
    alloc: Global,
    output: &mut Output,
    table: &Table,
    levels: u32,
    items: &[Item],
) -> Result<(), NoMemory>
    ensures written { let spell = kid_spelling table.now (element_spelling table.now levels) in
        let writing = ended spell (items_kids (node_kids levels) items.now) in
        OnOk result (output.new ≡ written writing output.old) }
    ensures characters { OnOk result (AllByRecursion (OfOpened (OfNode levels)) items.now) }
{
    write_items(alloc, output, table, levels, items)?;
    if !give_content(levels, items) {
        return Ok(());
    }
    output.push(END)?;
    Ok(())
}

/// Writes an item, a node with so many levels.
#[cycle(nodes)]
fn write_item(
    alloc: Global,
    output: &mut Output,
    table: &Table,
    levels: u32,
    item: &Item,
) -> Result<(), NoMemory>
    ensures written { let spell = kid_spelling table.now (element_spelling table.now levels) in
        let writing = each spell (item_kids (node_kids levels) item.now) in
        OnOk result (output.new ≡ written writing output.old) }
    ensures characters { OnOk result (OfOpened (OfNode levels) item.now) }
{
    match item {
        Item::Text(parts) => {
            write_parts(alloc, output, parts.as_slice())?;
            Ok(())
        }
        Item::Node(node) => {
            if levels == 0 {
                return Ok(());
            }
            write_node(alloc, output, table, levels - 1, node)?;
            Ok(())
        }
    }
}

/// Writes items, their nodes with so many levels.
#[cycle(nodes)]
fn write_items(
    alloc: Global,
    output: &mut Output,
    table: &Table,
    levels: u32,
    items: &[Item],
) -> Result<(), NoMemory>
    ensures written { let spell = kid_spelling table.now (element_spelling table.now levels) in
        let writing = each spell (items_kids (node_kids levels) items.now) in
        OnOk result (output.new ≡ written writing output.old) }
    ensures characters { OnOk result (AllByRecursion (OfOpened (OfNode levels)) items.now) }
{
    for item in items {
        write_item(alloc, output, table, levels, item)?;
    }
    Ok(())
}
