//! A deck as indented text.
use crate::decks::names::name_of_tag;
use crate::decks::texts::Parts;
use crate::pieces::{Added, margin};
use std::fmt::Write;
use wap_base::Part;
use wap_tokens::markup::{Deck, Item, LEVEL_LIMIT, Node};
use wap_tokens::name_of_attr;

/// The rest of a way that leads through the child at a place.
fn way_through<'a>(mark: Option<&'a [usize]>, place: usize) -> Option<&'a [usize]> {
    match mark {
        Some([first, rest @ ..]) if *first == place => Some(rest),
        _ => None,
    }
}

/// Begins a line so far inside, with a mark where the way ends.
fn begin_line(out: &mut String, mark: Option<&[usize]>, levels: u32) -> Added {
    out.push_str(margin(matches!(mark, Some([]))))?;
    for _ in levels..LEVEL_LIMIT {
        out.push_str("  ")?;
    }
    Ok(())
}

/// Adds a text, but for blanks alone.
fn add_text(out: &mut String, mark: Option<&[usize]>, levels: u32, parts: &[Part]) -> Added {
    if matches!(parts, [Part::Lit(text)] if text.as_str().trim().is_empty()) {
        return Ok(());
    }
    begin_line(out, mark, levels)?;
    Ok(write!(out, "{}\n", Parts(parts))?)
}

/// Adds a node of so many levels.
fn add_node(out: &mut String, mark: Option<&[usize]>, levels: u32, node: &Node) -> Added {
    if levels == 0 {
        return Ok(());
    }
    let name = name_of_tag(node.tag);
    begin_line(out, mark, levels)?;
    write!(out, "<{name}")?;
    for attr in node.attrs.as_slice() {
        let value = Parts(attr.1.as_slice());
        write!(out, " {}=\"{value}\"", name_of_attr(attr.0))?;
    }
    if node.kids.is_empty() {
        return Ok(out.push_str("/>\n")?);
    }
    out.push_str(">\n")?;
    for (place, item) in node.kids.as_slice().iter().enumerate() {
        let inner = way_through(mark, place);
        match item {
            Item::Text(parts) => add_text(out, inner, levels - 1, parts.as_slice())?,
            Item::Node(kid) => add_node(out, inner, levels - 1, kid)?,
        }
    }
    begin_line(out, None, levels)?;
    Ok(write!(out, "</{name}>\n")?)
}

/// Adds a deck, an element or text a line, with a mark at the end of a way, if there is one.
pub(crate) fn add_deck(out: &mut String, deck: &Deck, mark: Option<&[usize]>) -> Added {
    add_node(out, mark, LEVEL_LIMIT, &deck.root)
}
