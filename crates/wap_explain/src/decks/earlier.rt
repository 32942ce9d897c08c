//! The earlier element that has an id or a name.
use crate::decks::names::{name_of_do, name_of_tag, node_at, plain_value};
use crate::decks::way::Way;
use crate::pieces::{Added, Shown};
use std::alloc::Global;
use std::fmt::Write;
use wap_base::{NoMemory, Rows};
use wap_tokens::markup::{AttrName, Item, LEVEL_LIMIT, Node, Tag};

/// The number, from 1, of the first card with an id.
fn number_of_card(root: &Node, id: &str) -> usize {
    let mut number = 0usize;
    for item in root.kids.as_slice() {
        if let Item::Node(node) = item {
            if node.tag == Tag::Card {
                number = number.saturating_add(1);
                if plain_value(node, AttrName::Id) == Some(id) {
                    return number;
                }
            }
        }
    }
    number
}

/// Leads a path on to the first do of a name in a node of so many levels, and says whether there
/// is one.
fn lead_to_do(
    path: &mut Rows<usize>,
    levels: u32,
    node: &Node,
    name: &str,
) -> Result<bool, NoMemory> {
    if node.tag == Tag::Do && name_of_do(node) == Some(name) {
        return Ok(true);
    }
    if levels == 0 {
        return Ok(false);
    }
    for (place, item) in node.kids.as_slice().iter().enumerate() {
        if let Item::Node(kid) = item {
            path.add(place)?;
            if lead_to_do(path, levels - 1, kid, name)? {
                return Ok(true);
            }
            let _step = path.pop();
        }
    }
    Ok(false)
}

/// Adds that an earlier do of the same card or template, at this place in the root, has the name.
fn add_do(alloc: Global, out: &mut String, root: &Node, place: usize, name: &str) -> Added {
    let Some(holder) = node_at(root, &[place]) else {
        return Ok(());
    };
    let mut path = Rows::of(alloc, &[place])?;
    let _found = lead_to_do(&mut path, LEVEL_LIMIT, holder, name)?;
    Ok(write!(
        out,
        "An earlier do has the name (or, without one, the type) \"{}\": {}\n\
         Dos of one {} have to differ: give each a name of its own.\n",
        Shown(name),
        Way(root, path.as_slice()),
        name_of_tag(holder.tag)
    )?)
}

/// Adds which earlier element has the id or the name of the one to which a path leads.
pub(crate) fn add_earlier(alloc: Global, out: &mut String, root: &Node, path: &[usize]) -> Added {
    let (Some(node), Some(place)) = (node_at(root, path), path.first()) else {
        return Ok(());
    };
    if node.tag == Tag::Do {
        return add_do(alloc, out, root, *place, name_of_do(node).unwrap_or(""));
    }
    let id = plain_value(node, AttrName::Id).unwrap_or("");
    Ok(write!(
        out,
        "An earlier card has the id \"{}\": wml / card[{}]\nIds of cards have to differ.\n",
        Shown(id),
        number_of_card(root, id)
    )?)
}
