//! The names that the document of a deck has in place of codes, which are those of attributes.
ghost use Rattle.std.specs.Prelude.{◌≡◌, map, suc, fold, OnOk, IfOk};
ghost use Rattle.wap_tokens.specs.markup.Writing.{attr_of, item_kids, items_kids};
ghost use Rattle.wap_tokens.specs.markup.Writing.{node_kids, element_of, document_of};
ghost use Rattle.wap_wbxml.specs.spelling.Names.{with_attr, with_kid, with_element, names_of};

use crate::writing::attributes::{own_code, whole_code};
use indexmap::IndexSet;
use std::alloc::Global;
use wap_base::{NoMemory, Part, Rows, Text};
use wap_tokens::markup::{AttrName, Deck, Item, LEVEL_LIMIT, Node};
use wap_tokens::name_of_attr;
use wap_wbxml::spelling::add_name;

/// Adds the name of an attribute, if it is written by its name.
fn add_attribute(
    alloc: Global,
    names: &mut IndexSet<Text>,
    attribute: &(AttrName, Rows<Part>),
) -> Result<(), NoMemory>
    ensures { OnOk result (names.new.keys ≡ with_attr names.old.keys (attr_of attribute.now)) }
{
    let name = attribute.0;
    if own_code(name).is_some() {
        return Ok(());
    }
    if whole_code(name, attribute.1.as_slice()).is_some() {
        return Ok(());
    }
    let text = Text::of(alloc, name_of_attr(name))?;
    add_name(alloc, names, &text)?;
    Ok(())
}

/// Adds the names of attributes.
fn add_attributes(
    alloc: Global,
    names: &mut IndexSet<Text>,
    attributes: &[(AttrName, Rows<Part>)],
) -> Result<(), NoMemory>
    ensures { OnOk result
        (names.new.keys ≡ fold with_attr names.old.keys (map attr_of attributes.now)) }
{
    for attribute in attributes {
        add_attribute(alloc, names, attribute)?;
    }
    Ok(())
}

/// Adds the names of a node, with so many levels of nodes in it.
#[cycle(nodes)]
fn add_node(
    alloc: Global,
    names: &mut IndexSet<Text>,
    levels: u32,
    node: &Node,
) -> Result<(), NoMemory>
    ensures { let element = element_of node.now (items_kids (node_kids levels) node.now.kids) in
        OnOk result (names.new.keys ≡ with_element (suc levels) names.old.keys element) }
{
    add_attributes(alloc, names, node.attrs.as_slice())?;
    add_items(alloc, names, levels, node.kids.as_slice())?;
    Ok(())
}

/// Adds the names of an item, a node with so many levels.
#[cycle(nodes)]
fn add_item(
    alloc: Global,
    names: &mut IndexSet<Text>,
    levels: u32,
    item: &Item,
) -> Result<(), NoMemory>
    ensures { let kids = item_kids (node_kids levels) item.now in
        OnOk result (names.new.keys ≡ fold (with_kid (with_element levels)) names.old.keys kids) }
{
    match item {
        Item::Text(_) => Ok(()),
        Item::Node(node) => {
            if levels == 0 {
                return Ok(());
            }
            add_node(alloc, names, levels - 1, node)?;
            Ok(())
        }
    }
}

/// Adds the names of items, their nodes with so many levels.
#[cycle(nodes)]
fn add_items(
    alloc: Global,
    names: &mut IndexSet<Text>,
    levels: u32,
    items: &[Item],
) -> Result<(), NoMemory>
    ensures { let kids = items_kids (node_kids levels) items.now in
        OnOk result (names.new.keys ≡ fold (with_kid (with_element levels)) names.old.keys kids) }
{
    for item in items {
        add_item(alloc, names, levels, item)?;
    }
    Ok(())
}

/// The names of a deck's document, each once, in the order of first use.
pub(crate) fn names_of(alloc: Global, deck: &Deck) -> Result<IndexSet<Text>, NoMemory>
    ensures { IfOk result (λ names. names.keys ≡ names_of (document_of deck.now)) }
{
    let mut names = IndexSet::new(alloc);
    add_node(alloc, &mut names, LEVEL_LIMIT - 1, &deck.root)?;
    Ok(names)
}
