//! The names of elements and attributes, and what is found in a deck.
use std::alloc::Global;
use std::fmt;
use wap_base::{NoMemory, Part, Rows};
use wap_tokens::markup::{AttrName, Item, LEVEL_LIMIT, Node, TAGS, Tag};

/// The name of an element.
pub(crate) fn name_of_tag(tag: Tag) -> &'static str {
    let row = TAGS.iter().find(|row| row.1 == tag);
    row.map_or("element", |row| row.2)
}

/// Names of elements, with a comma between each and the next.
#[derive(Clone, Copy)]
pub(crate) struct Tags<'a>(pub(crate) &'a [Tag]);

impl fmt::Display for Tags<'_> {
    fn fmt<W: fmt::Write>(&self, f: &mut fmt::Formatter<W>) -> fmt::Result {
        for (number, tag) in self.0.iter().enumerate() {
            let comma = if number > 0 { ", " } else { "" };
            write!(f, "{comma}{}", name_of_tag(*tag))?;
        }
        Ok(())
    }
}

/// The value of the first attribute of a name.
pub(crate) fn value_of(node: &Node, name: AttrName) -> Option<&Rows<Part>> {
    let attr = node.attrs.as_slice().iter().find(|attr| attr.0 == name);
    attr.map(|attr| &attr.1)
}

/// The text of a value in which no variable is referred to.
pub(crate) fn plain_text(parts: &[Part]) -> Option<&str> {
    match parts {
        [] => Some(""),
        [Part::Lit(text)] => Some(text.as_str()),
        _ => None,
    }
}

/// The text of an attribute, if it is there and no variable is referred to.
pub(crate) fn plain_value(node: &Node, name: AttrName) -> Option<&str> {
    plain_text(value_of(node, name)?.as_slice())
}

/// The name by which a do is told apart: its own, or else its type.
pub(crate) fn name_of_do(node: &Node) -> Option<&str> {
    let own = value_of(node, AttrName::Name).or(value_of(node, AttrName::Type));
    plain_text(own?.as_slice())
}

/// The node to which a path leads.
pub(crate) fn node_at<'a>(root: &'a Node, path: &[usize]) -> Option<&'a Node> {
    let mut node = root;
    for step in path {
        let Item::Node(inner) = node.kids.get(*step)? else {
            return None;
        };
        node = inner;
    }
    Some(node)
}

/// The path to what stands last in a deck: the last child of the last child, and so on.
pub(crate) fn last_path(alloc: Global, root: &Node) -> Result<Rows<usize>, NoMemory> {
    let mut path = Rows::new(alloc);
    let mut node = root;
    for _ in 0..LEVEL_LIMIT {
        let Some((last, before)) = node.kids.as_slice().split_last() else {
            return Ok(path);
        };
        path.add(before.len())?;
        let Item::Node(inner) = last else {
            return Ok(path);
        };
        node = inner;
    }
    Ok(path)
}
