//! The walk over a card, in the order of the document.
ghost use Rattle.std.specs.Prelude.{◌≡◌, OnOk};
ghost use Rattle.std.specs.List.{fold};
ghost use Rattle.wap_cardrules.specs.Content.{words, begins, ends, element_marks, kids_marks, marks_in};
ghost use Rattle.wap_cards.specs.flow.inside.Walks.{walked};

use crate::flow::shown::Shown;
use crate::{is_open, may_have_text};
use std::alloc::Global;
use wap_base::{NoMemory, Rows};
use wap_deck::good::{Child, Run, Tag, View};
use wap_vars::Vars;

/// What shows so far, and the dos that began.
#[derive(Drop)]
pub(crate) struct Walk<'a> {
    pub(crate) shown: Shown,
    pub(crate) dos: Rows<View<'a>>,
}

impl<'a> Walk<'a> {
    /// Takes a text that shows.
    fn take_text(&mut self, alloc: Global, vars: &Vars, text: Run<'a>) -> Result<(), NoMemory>
        ensures { OnOk result (self.new ≡ walked vars.now self.old (words text.entry)) }
    {
        self.shown.add_words(alloc, vars, text)
    }

    /// Takes an element that begins.
    fn begin(&mut self, alloc: Global, vars: &Vars, node: &View<'a>) -> Result<(), NoMemory>
        ensures { OnOk result (self.new ≡ walked vars.now self.old (begins node.now)) }
    {
        self.shown.begin(alloc, vars, node)?;
        if node.tag() == Tag::Do {
            return self.dos.add(node.again());
        }
        Ok(())
    }

    /// Takes an element that ends.
    fn end(&mut self, alloc: Global, vars: &Vars, node: &View<'a>) -> Result<(), NoMemory>
        ensures { OnOk result (self.new ≡ walked vars.now self.old (ends node.now)) }
    {
        self.shown.end(alloc, node.tag())
    }
}

/// Takes what shows in an element, of so many levels.
#[cycle(content)]
fn take_content<'a>(
    alloc: Global,
    vars: &Vars,
    levels: u32,
    node: &View<'a>,
    walk: &mut Walk<'a>,
) -> Result<(), NoMemory>
    ensures { OnOk result
        (walk.new ≡ fold (walked vars.now) walk.old (marks_in levels node.now)) }
{
    if levels == 0 {
        return Ok(());
    }
    if is_open(node.tag()) {
        take_kids(alloc, vars, levels - 1, node, walk)
    } else {
        Ok(())
    }
}

/// Takes an element and what shows in it, of so many levels.
#[cycle(content)]
fn take_element<'a>(
    alloc: Global,
    vars: &Vars,
    levels: u32,
    node: &View<'a>,
    walk: &mut Walk<'a>,
) -> Result<(), NoMemory>
    ensures { OnOk result (walk.new ≡ fold (walked vars.now) walk.old
        (element_marks (marks_in levels) node.now)) }
{
    walk.begin(alloc, vars, node)?;
    take_content(alloc, vars, levels, node, walk)?;
    walk.end(alloc, vars, node)
}

/// Takes what stands in a node, its elements of so many levels.
#[cycle(content)]
pub(crate) fn take_kids<'a>(
    alloc: Global,
    vars: &Vars,
    levels: u32,
    node: &View<'a>,
    walk: &mut Walk<'a>,
) -> Result<(), NoMemory>
    ensures { OnOk result
        (walk.new ≡ fold (walked vars.now) walk.old (kids_marks (marks_in levels) node.now)) }
{
    let may_have_text = may_have_text(node.tag());
    for child in node.kids() {
        match child {
            Child::Text(text) => {
                if may_have_text {
                    walk.take_text(alloc, vars, text)?;
                }
            }
            Child::Node(inner) => take_element(alloc, vars, levels, &inner, walk)?,
        }
    }
    Ok(())
}
