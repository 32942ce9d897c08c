//! What mending changed, in words: a line for each change, with the way to its place, and the rule.
use crate::decks::{Parts, name_of_tag, node_at, plain_value};
use crate::pieces::{Added, Shown};
use std::alloc::Global;
use std::fmt;
use std::fmt::Write;
use wap_base::{NoMemory, Part};
use wap_mend::{Change, MendedPage, What};
use wap_tokens::markup::{AttrName, Item, Node, RULES, Tag};
use wap_tokens::name_of_attr;

/// Where a change was made: the names on the way from the root, and the path, as
/// `wml / card "a" / p (0/2)`.
#[derive(Clone, Copy)]
struct Place<'a>(&'a Node, &'a [usize]);

/// Writes the names on the way from a node.
fn write_names<W: fmt::Write>(
    f: &mut fmt::Formatter<W>,
    root: &Node,
    path: &[usize],
) -> fmt::Result {
    let mut node = root;
    for step in path {
        match node.kids.get(*step) {
            None => return Ok(()),
            Some(Item::Text(_)) => return write!(f, " / text"),
            Some(Item::Node(inner)) => {
                write!(f, " / {}", name_of_tag(inner.tag))?;
                if let Some(id) = plain_value(inner, AttrName::Id) {
                    write!(f, " \"{}\"", Shown(id))?;
                }
                node = inner;
            }
        }
    }
    Ok(())
}

impl fmt::Display for Place<'_> {
    fn fmt<W: fmt::Write>(&self, f: &mut fmt::Formatter<W>) -> fmt::Result {
        write!(f, "{}", name_of_tag(self.0.tag))?;
        write_names(f, self.0, self.1)?;
        for (number, step) in self.1.iter().enumerate() {
            let begin = if number == 0 { " (" } else { "/" };
            write!(f, "{begin}{step}")?;
        }
        if self.1.is_empty() {
            return Ok(());
        }
        write!(f, ")")
    }
}

/// What comes of an element that doesn't stay.
fn outcome(root: &Node, path: &[usize]) -> &'static str {
    match node_at(root, path) {
        Some(node) if !node.kids.is_empty() => "what is in it takes its place",
        _ => "it goes",
    }
}

/// The rule by which the second of two elements goes: of tasks the first stays, and what may stand
/// once stays once.
fn rule_of_second(tag: Tag) -> u8 {
    let is_task = RULES
        .iter()
        .any(|rule| rule.0 == Tag::Do && rule.5.contains(&tag));
    if is_task { 6 } else { 7 }
}

/// Adds what was changed of elements.
fn add_element(out: &mut String, root: &Node, change: &Change) -> Added {
    let outcome = outcome(root, change.path.as_slice());
    match &change.what {
        What::Root(tag) => write!(out, "{} becomes wml (rule 2)", name_of_tag(*tag))?,
        What::Opened(tag) => {
            let name = name_of_tag(*tag);
            write!(out, "{name} may not stand there: {outcome} (rule 2)")?;
        }
        What::Parted(tag) => {
            let name = name_of_tag(*tag);
            write!(out, "{name} ends the paragraph in which it stands (rule 3)")?;
        }
        What::Lacking(tag) => {
            let name = name_of_tag(*tag);
            write!(out, "{name} lacks what it has to have: {outcome} (rule 5)")?;
        }
        What::Gone(tag) => {
            let name = name_of_tag(*tag);
            write!(out, "{name} lacks what it has to have: it goes (rule 5)")?;
        }
        What::Second(tag) => {
            let (name, rule) = (name_of_tag(*tag), rule_of_second(*tag));
            write!(out, "{name} isn't the first: it goes (rule {rule})")?;
        }
        What::Moved(tag) => {
            let name = name_of_tag(*tag);
            write!(out, "{name} is moved to its place (rule 7)")?;
        }
        _ => (),
    }
    Ok(())
}

/// Adds what was changed.
fn add_what(out: &mut String, root: &Node, change: &Change) -> Added {
    match &change.what {
        What::Identifier => out.push_str("the identifier becomes that of WML 1.3 (rule 1)")?,
        What::Text => out.push_str("a text may not stand there: it goes (rule 2)")?,
        What::Wrapped => out.push_str("a paragraph is put round it (rule 3)")?,
        What::Attribute(name) => {
            let name = name_of_attr(*name);
            write!(out, "the attribute {name} goes (rule 4)")?;
        }
        What::Lowered(name) => {
            let name = name_of_attr(*name);
            write!(out, "the attribute {name} is put in lower case (rule 4)")?;
        }
        What::Id => out.push_str("an earlier card has its id, which goes (rule 6)")?,
        What::Anew => out.push_str("the deck is put together anew")?,
        What::Named(name) => {
            let name = Shown(name.as_str());
            write!(
                out,
                "an earlier do has its name, which becomes {name} (rule 6)"
            )?;
        }
        _ => add_element(out, root, change)?,
    }
    Ok(())
}

/// Whether a part of a text is more than blanks.
fn says_more(part: &Part) -> bool {
    match part {
        Part::Lit(text) => !text.as_str().trim().is_empty(),
        Part::Var(..) => true,
    }
}

/// Adds the texts that go with a change, if they are more than blanks.
fn add_lost(out: &mut String, lost: &[Part]) -> Added {
    if lost.iter().any(says_more) {
        write!(out, ": \"{}\"", Parts(lost))?;
    }
    Ok(())
}

/// A line for each change of a page.
pub(crate) fn lines_of(alloc: Global, page: &MendedPage) -> Result<String, NoMemory> {
    let root = &page.given.root;
    let mut out = String::new(alloc);
    for change in page.changes.as_slice() {
        write!(out, "at {}: ", Place(root, change.path.as_slice()))?;
        add_what(&mut out, root, change)?;
        add_lost(&mut out, change.lost.texts.as_slice())?;
        out.push_str("\n")?;
    }
    Ok(out)
}
