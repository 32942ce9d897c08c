//! Tasks (WAP-191, sections 9.3, 9.5 and 9.7 to 9.9).
ghost use Rattle.std.specs.Prelude.{◌≡◌, map, find, true, IfOk};
ghost use Rattle.std.specs.List.{filter_map};
ghost use Rattle.std.specs.Str.{chars};
ghost use Rattle.wap_base.specs.Texts.{is_same_text};
ghost use Rattle.wap_vars.specs.Filling.{value_text};
ghost use Rattle.wap_tokens.specs.markup.Trees.{node_with, is_text, plain_value, value_of};
ghost use Rattle.wap_tokens.specs.markup.Tasks.{is_task, task_of};
ghost use Rattle.wap_cardrules.specs.Tasks.{pair_in, sets_in, go_in};
ghost use Rattle.wap_cardrules.specs.Tasks.{go_to, task_from, task_in};

use crate::filling::fill_value;
use crate::values::{is_true, is_word, plain_value};
use std::alloc::Global;
use wap_base::{NoMemory, Rows, Text};
use wap_cardrules::{Go, Task};
use wap_deck::good::{AttrName, Child, Tag, View};
use wap_vars::Vars;

/// Whether an element is a task, and no noop.
fn is_task(tag: Tag) -> bool
    ensures { result ≡ is_task tag }
{
    tag == Tag::Go || tag == Tag::Prev || tag == Tag::Refresh
}

/// The first task in a node.
#[tactic(auto, using(crate::proofs::Kids::node_steps))]
pub(crate) fn task_of<'a>(view: &View<'a>) -> Option<View<'a>>
    ensures { result ≡ task_of view.now }
{
    for child in view.kids() {
        if let Child::Node(node) = child {
            if is_task(node.tag()) {
                return Some(node);
            }
        }
    }
    None
}

/// The first child with a tag.
#[tactic(auto, using(crate::proofs::Kids::node_steps))]
pub fn first_with<'a>(view: &View<'a>, tag: Tag) -> Option<View<'a>>
    ensures { result ≡ find (λ _. true) (filter_map (node_with tag) view.now.kids) }
{
    for child in view.kids() {
        if let Child::Node(node) = child {
            if node.tag() == tag {
                return Some(node);
            }
        }
    }
    None
}

/// The name and the value of a setvar or a postfield.
fn pair_in(alloc: Global, vars: &Vars, view: &View<'_>) -> Result<(Text, Text), NoMemory>
    ensures { IfOk result (λ pair. pair ≡ pair_in vars.now view.now) }
{
    let name = fill_value(alloc, vars, view, AttrName::Name)?;
    Ok((name, fill_value(alloc, vars, view, AttrName::Value)?))
}

/// The names and values of the children with a tag.
#[tactic(auto, using(crate::proofs::Kids::pair_steps))]
fn pairs_with(
    alloc: Global,
    vars: &Vars,
    view: &View<'_>,
    tag: Tag,
) -> Result<Rows<(Text, Text)>, NoMemory>
    ensures { IfOk result (λ pairs. pairs
        ≡ map (pair_in vars.now) (filter_map (node_with tag) view.now.kids)) }
{
    let mut pairs = Rows::new(alloc);
    for child in view.kids() {
        if let Child::Node(node) = child {
            if node.tag() == tag {
                pairs.add(pair_in(alloc, vars, &node)?)?;
            }
        }
    }
    Ok(pairs)
}

/// What a task sets.
fn sets_in(alloc: Global, vars: &Vars, view: &View<'_>) -> Result<Rows<(Text, Text)>, NoMemory>
    ensures { IfOk result (λ sets. sets ≡ sets_in vars.now view.now) }
{
    pairs_with(alloc, vars, view, Tag::Setvar)
}

/// Whether an attribute that holds no reference is this word.
fn is_plain(alloc: Global, view: &View<'_>, name: AttrName, word: &str) -> Result<bool, NoMemory>
    ensures { IfOk result (λ is_so. is_so ≡ is_text (chars word.now) (plain_value name view.now)) }
{
    let value = plain_value(alloc, view, name)?;
    Ok(is_word(value.as_ref(), word))
}

/// Whether the filled value of an attribute is this word.
pub fn is_filled(
    alloc: Global,
    vars: &Vars,
    view: &View<'_>,
    name: AttrName,
    word: &str,
) -> Result<bool, NoMemory>
    ensures { IfOk result (λ is_so. is_so
        ≡ is_same_text (chars word.now) (value_text vars.now (value_of name view.now))) }
{
    let value = fill_value(alloc, vars, view, name)?;
    Ok(value.as_str() == word)
}

/// A go, filled.
fn go_in(alloc: Global, vars: &Vars, view: &View<'_>) -> Result<Go, NoMemory>
    ensures { IfOk result (λ go. go ≡ go_in vars.now view.now) }
{
    Ok(Go {
        href: fill_value(alloc, vars, view, AttrName::Href)?,
        post: is_plain(alloc, view, AttrName::Method, "post")?,
        referer: is_true(alloc, view, AttrName::Sendreferer)?,
        fresh: is_filled(alloc, vars, view, AttrName::CacheControl, "no-cache")?,
        posts: pairs_with(alloc, vars, view, Tag::Postfield)?,
        sets: sets_in(alloc, vars, view)?,
    })
}

/// A go to a URL and nothing more.
pub(crate) fn go_to(alloc: Global, href: Text) -> Task
    ensures { result ≡ go_to href }
{
    Task::Go(Go {
        href,
        post: false,
        referer: false,
        fresh: false,
        posts: Rows::new(alloc),
        sets: Rows::new(alloc),
    })
}

/// The task that an element is, filled; a noop is none.
fn task_from(alloc: Global, vars: &Vars, view: &View<'_>) -> Result<Option<Task>, NoMemory>
    ensures { IfOk result (λ task. task ≡ task_from vars.now view.now) }
{
    let tag = view.tag();
    if tag == Tag::Go {
        return Ok(Some(Task::Go(go_in(alloc, vars, view)?)));
    }
    if tag == Tag::Prev {
        return Ok(Some(Task::Prev(sets_in(alloc, vars, view)?)));
    }
    if tag == Tag::Refresh {
        return Ok(Some(Task::Refresh(sets_in(alloc, vars, view)?)));
    }
    Ok(None)
}

/// The task in a do, an anchor or an onevent, filled.
pub(crate) fn task_in(alloc: Global, vars: &Vars, view: &View<'_>) -> Result<Option<Task>, NoMemory>
    ensures { IfOk result (λ task. task ≡ task_in vars.now view.now) }
{
    match task_of(view) {
        Some(task) => task_from(alloc, vars, &task),
        None => Ok(None),
    }
}
