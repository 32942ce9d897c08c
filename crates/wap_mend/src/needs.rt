//! What elements can't do without (rule 5).
ghost use Rattle.std.specs.Prelude.{◌≡◌, [], true, IfOk};

use crate::attributes::keeps_attribute;
use std::alloc::Global;
use wap_base::NoMemory;
use wap_deckcheck::Rule;
use wap_tokens::markup::{Item, Node, Tag};

/// Whether an element has the attributes that it has to have, and they stay.
fn keeps_attributes(alloc: Global, rule: &Rule, node: &Node) -> Result<bool, NoMemory>
    ensures { IfOk result (λ keeps. rule.now.attributes ≡ [] → keeps ≡ true) }
{
    for name in rule.needed_attributes() {
        if !keeps_attribute(alloc, node, *name)? {
            return Ok(false);
        }
    }
    Ok(true)
}

/// Whether an element of so many levels has what it can't do without. A card can do without
/// anything.
#[cycle(needs)]
pub(crate) fn is_whole(alloc: Global, levels: u32, node: &Node) -> Result<bool, NoMemory>
    ensures { IfOk result (λ whole. node.now.tag ≡ Tag.Card → whole ≡ true) }
{
    let rule = Rule::of(node.tag);
    if !keeps_attributes(alloc, &rule, node)? {
        return Ok(false);
    }
    let needs_none = rule.needed().is_empty();
    if needs_none || levels == 0 {
        return Ok(needs_none);
    }
    has_needed(alloc, levels - 1, &rule, node.kids.as_slice())
}

/// Whether one of some items of so many levels is one that a rule asks for, or has it where it
/// gives its place to its content.
#[cycle(needs)]
fn has_needed(alloc: Global, levels: u32, rule: &Rule, items: &[Item]) -> Result<bool, NoMemory> {
    for item in items {
        if let Item::Node(node) = item {
            if is_needed(alloc, levels, rule, node)? {
                return Ok(true);
            }
        }
    }
    Ok(false)
}

/// The same of an element of so many levels.
#[cycle(needs)]
fn is_needed(alloc: Global, levels: u32, rule: &Rule, node: &Node) -> Result<bool, NoMemory> {
    if rule.place_of(node.tag).is_some() {
        if rule.needed().iter().any(|tag| *tag == node.tag) {
            return is_whole(alloc, levels, node);
        }
        return Ok(false);
    }
    if levels == 0 {
        return Ok(false);
    }
    has_needed(alloc, levels - 1, rule, node.kids.as_slice())
}
