//! What may stand in an element, in words.
use crate::decks::names::{Tags, name_of_tag};
use crate::pieces::Added;
use std::fmt::Write;
use wap_tokens::markup::{Item, Node, RULES, Tag};

/// The first of some items whose tag is in a group.
fn first_in(group: &[Tag], items: &[Item]) -> Option<Tag> {
    items.iter().find_map(|item| match item {
        Item::Node(node) if group.contains(&node.tag) => Some(node.tag),
        _ => None,
    })
}

/// Adds why an element that may stand in another may not stand there after these items. Of each
/// group there may be one.
fn add_order(
    out: &mut String,
    parent: &str,
    groups: &[&[Tag]],
    before: &[Item],
    tag: Tag,
) -> Added {
    for group in groups.iter().filter(|group| group.contains(&tag)) {
        if let Some(earlier) = first_in(group, before) {
            let (group, earlier) = (Tags(group), name_of_tag(earlier));
            return Ok(write!(
                out,
                "Of {parent}'s {group} there may be one; a {earlier} stands before.\n"
            )?);
        }
    }
    Ok(write!(out, "{} stands too late in {parent}.\n", name_of_tag(tag))?)
}

/// Adds what may stand in an element: text, and elements of groups, in this order or in any.
fn add_content(
    out: &mut String,
    parent: &str,
    text: bool,
    groups: &[&[Tag]],
    in_order: bool,
) -> Added {
    let content = if text {
        "text"
    } else if groups.is_empty() {
        "nothing"
    } else {
        ""
    };
    write!(out, "In {parent} there may stand {content}")?;
    for (number, group) in groups.iter().enumerate() {
        let between = match (number > 0 || text, in_order) {
            (false, _) => "",
            (true, false) => ", ",
            (true, true) => ", then ",
        };
        write!(out, "{between}{}", Tags(group))?;
    }
    Ok(out.push_str(".\n")?)
}

/// Adds why the child at a place may not stand there, and what may.
pub(crate) fn add_child(out: &mut String, parent: &Node, place: usize) -> Added {
    let kids = parent.kids.as_slice();
    let rule = RULES.iter().find(|rule| rule.0 == parent.tag);
    let (Some(rule), Some(item)) = (rule, kids.get(place)) else {
        return Ok(());
    };
    let name = name_of_tag(parent.tag);
    match item {
        Item::Text(_) => write!(out, "A text may not stand in {name}.\n")?,
        Item::Node(node) if rule.1.iter().any(|group| group.contains(&node.tag)) => {
            add_order(
                out,
                name,
                rule.4,
                kids.get(..place).unwrap_or(kids),
                node.tag,
            )?;
        }
        Item::Node(node) => write!(out, "{} may not stand in {name}.\n", name_of_tag(node.tag))?,
    }
    add_content(out, name, rule.3, rule.1, rule.2)
}
