//! What of a deck isn't good, in words, and the deck with a mark there.
use crate::decks::earlier::add_earlier;
use crate::decks::names::{Tags, name_of_tag, node_at, value_of};
use crate::decks::order::add_child;
use crate::decks::tree::add_deck;
use crate::decks::values::add_value;
use crate::decks::way::Way;
use crate::pieces::Added;
use std::alloc::Global;
use std::fmt::Write;
use wap_deckcheck::DeckFault;
use wap_tokens::markup::{Deck, Node, RULES};
use wap_tokens::name_of_attr;

/// The path of a fault, where it has one.
fn path_of(fault: &DeckFault) -> &[usize] {
    match fault {
        DeckFault::Child { path }
        | DeckFault::Attr { path }
        | DeckFault::Missing { path }
        | DeckFault::Value { path }
        | DeckFault::DuplicateId { path } => path.as_slice(),
        DeckFault::NoCard | DeckFault::NoMemory => &[],
    }
}

/// Adds which attribute, the first, stands twice.
fn add_twice(out: &mut String, node: &Node) -> Added {
    for attr in node.attrs.as_slice() {
        let same = node
            .attrs
            .as_slice()
            .iter()
            .filter(|other| other.0 == attr.0);
        if same.count() > 1 {
            let name = name_of_attr(attr.0);
            return Ok(write!(out, "The attribute {name} stands there twice.\n")?);
        }
    }
    Ok(())
}

/// Adds which attributes are missing, or else which elements.
fn add_missing(out: &mut String, node: &Node) -> Added {
    let Some(rule) = RULES.iter().find(|rule| rule.0 == node.tag) else {
        return Ok(());
    };
    let mut missing = false;
    for name in rule.6 {
        if value_of(node, *name).is_none() {
            write!(out, "The attribute {} is missing.\n", name_of_attr(*name))?;
            missing = true;
        }
    }
    if missing {
        return Ok(());
    }
    let (name, needs) = (name_of_tag(node.tag), Tags(rule.5));
    Ok(write!(out, "In {name} there has to stand one of: {needs}.\n")?)
}

/// Adds the rule that a fault is against.
fn add_rule(alloc: Global, out: &mut String, root: &Node, fault: &DeckFault) -> Added {
    let path = path_of(fault);
    let node = node_at(root, path).unwrap_or(root);
    match fault {
        DeckFault::Child { .. } => match path.split_last() {
            None => Ok(out.push_str("The root of a deck has to be wml.\n")?),
            Some((place, above)) => add_child(out, node_at(root, above).unwrap_or(root), *place),
        },
        DeckFault::Attr { .. } => add_twice(out, node),
        DeckFault::Missing { .. } => add_missing(out, node),
        DeckFault::Value { .. } => add_value(alloc, out, node),
        DeckFault::DuplicateId { .. } => add_earlier(alloc, out, root, path),
        DeckFault::NoCard => Ok(out.push_str("In wml there has to stand a card.\n")?),
        DeckFault::NoMemory => Ok(()),
    }
}

/// Adds the way to the place of a fault, the rule, and the deck with a mark there.
pub(crate) fn add_deck_fault(
    alloc: Global,
    out: &mut String,
    deck: &Deck,
    fault: &DeckFault,
) -> Added {
    write!(out, "at {}\n", Way(&deck.root, path_of(fault)))?;
    add_rule(alloc, out, &deck.root, fault)?;
    out.push_str("\n")?;
    add_deck(out, deck, Some(path_of(fault)))
}
