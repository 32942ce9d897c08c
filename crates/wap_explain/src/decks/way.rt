//! The way to an element by its names.
use crate::decks::names::{name_of_tag, plain_value};
use crate::pieces::Shown;
use std::fmt;
use wap_tokens::markup::{AttrName, Item, Node, Tag};

/// How many elements of a tag there are among some items.
fn count_of(items: &[Item], tag: Tag) -> usize {
    let same = |item: &&Item| matches!(item, Item::Node(node) if node.tag == tag);
    items.iter().filter(same).count()
}

/// Writes an element's name, with its id, or else its number where there are others of its name.
fn write_step<W: fmt::Write>(
    f: &mut fmt::Formatter<W>,
    kids: &[Item],
    place: usize,
    node: &Node,
) -> fmt::Result {
    write!(f, " / {}", name_of_tag(node.tag))?;
    if let Some(id) = plain_value(node, AttrName::Id) {
        return write!(f, " \"{}\"", Shown(id));
    }
    if count_of(kids, node.tag) < 2 {
        return Ok(());
    }
    write!(
        f,
        "[{}]",
        count_of(kids.get(..=place).unwrap_or(kids), node.tag)
    )
}

/// The way from the root, as `wml / card "a" / p[2]`.
#[derive(Clone, Copy)]
pub(crate) struct Way<'a>(pub(crate) &'a Node, pub(crate) &'a [usize]);

impl fmt::Display for Way<'_> {
    fn fmt<W: fmt::Write>(&self, f: &mut fmt::Formatter<W>) -> fmt::Result {
        let mut node = self.0;
        write!(f, "{}", name_of_tag(node.tag))?;
        for step in self.1 {
            let kids = node.kids.as_slice();
            match kids.get(*step) {
                None => return Ok(()),
                Some(Item::Text(_)) => return write!(f, " / text"),
                Some(Item::Node(inner)) => {
                    write_step(f, kids, *step, inner)?;
                    node = inner;
                }
            }
        }
        Ok(())
    }
}
