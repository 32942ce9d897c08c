//! The dos of a card (WAP-191, sections 9.6 and 9.7).
ghost use Rattle.std.specs.Prelude.{◌≡◌, ◌++◌, not, filter, find, is_some, IfOk, OnOk, ℕ, List};
ghost use Rattle.std.specs.List.{list_any};
ghost use Rattle.wap_base.specs.Texts.{is_same_text};
ghost use Rattle.wap_tokens.specs.markup.Trees.{value_of};
ghost use Rattle.wap_tokens.specs.markup.Tasks.{task_of};
ghost use Rattle.wap_tokens.specs.markup.Good.{first_of, name_of_do};
ghost use Rattle.wap_cardrules.specs.Dos.{dos_in, do_name, has_do, others_beside, active_beside};
ghost use Rattle.wap_cardrules.specs.Dos.{active_dos, label_of, labels_beside, do_task};

use crate::elements::{Sought, elements_of};
use crate::events::template_of;
use crate::filling::fill_value;
use crate::tasks::{task_in, task_of};
use crate::texts::Texts;
use crate::values::plain_text;
use std::alloc::Global;
use wap_base::{NoMemory, Rows, Text};
use wap_cardrules::Task;
use wap_deck::good::{AttrName, GoodDeck, Run, View};
use wap_vars::Vars;

/// The value of a do's name, or else of its type.
fn named_value<'a>(view: &View<'a>) -> Option<Run<'a>>
    ensures { result
        ≡ first_of (value_of AttrName.Name view.now) (value_of AttrName.Type view.now) }
{
    match view.attr(AttrName::Name) {
        Some(value) => Some(value),
        None => view.attr(AttrName::Type),
    }
}

/// The name of a do, or else its type.
fn name_of_do(alloc: Global, view: &View<'_>) -> Result<Option<Text>, NoMemory>
    ensures { IfOk result (λ name. name ≡ name_of_do view.now) }
{
    match named_value(view) {
        Some(value) => plain_text(alloc, value),
        None => Ok(None),
    }
}

/// The name of a do, or else its type, and without these the empty text.
fn do_name(alloc: Global, view: &View<'_>) -> Result<Text, NoMemory>
    ensures { IfOk result (λ name. name ≡ do_name view.now) }
{
    match name_of_do(alloc, view)? {
        Some(name) => Ok(name),
        None => Ok(Text::new(alloc)),
    }
}

/// The dos of a card or a template.
fn dos_in<'a>(alloc: Global, view: &View<'a>) -> Result<Rows<View<'a>>, NoMemory>
    ensures { IfOk result (λ dos. dos ≡ dos_in view.now) }
{
    elements_of(alloc, Sought::Dos, view)
}

/// The names of dos.
fn names_of(alloc: Global, dos: &[View<'_>]) -> Result<Texts, NoMemory>
    ensures { IfOk result (λ names. (name : List ℕ) →
        list_any (is_same_text name) names ≡ has_do name dos.now) }
{
    let mut names = Texts::new(alloc);
    for one in dos {
        names.add(do_name(alloc, one)?)?;
    }
    Ok(names)
}

/// Whether the name of a do is none of some.
fn is_other(alloc: Global, one: &View<'_>, names: &Texts) -> Result<bool, NoMemory>
    ensures { IfOk result (λ is_so. is_so
        ≡ not (list_any (is_same_text (do_name one.now)) names.now)) }
{
    let name = do_name(alloc, one)?;
    Ok(!names.has(&name))
}

/// The dos whose name is none of some.
fn others<'a>(alloc: Global, dos: &[View<'a>], names: &Texts) -> Result<Rows<View<'a>>, NoMemory>
    ensures { IfOk result (λ others. others
        ≡ filter (λ one. not (list_any (is_same_text (do_name one)) names.now)) dos.now) }
{
    let mut others = Rows::new(alloc);
    for one in dos {
        if is_other(alloc, one, names)? {
            others.add(one.again())?;
        }
    }
    Ok(others)
}

/// The dos of the template whose name none of some other dos has.
fn template_dos<'a>(
    alloc: Global,
    deck: &'a GoodDeck,
    own: &[View<'_>],
) -> Result<Rows<View<'a>>, NoMemory>
    ensures { IfOk result (λ others. others ≡ others_beside deck.now own.now) }
{
    match template_of(deck) {
        Some(template) => {
            let names = names_of(alloc, own)?;
            let dos = dos_in(alloc, &template)?;
            others(alloc, dos.as_slice(), &names)
        }
        None => Ok(Rows::new(alloc)),
    }
}

/// Appends the dos that are no noop.
fn add_active<'a>(dos: &[View<'a>], active: &mut Rows<View<'a>>) -> Result<(), NoMemory>
    ensures { OnOk result
        (active.new ≡ active.old ++ filter (λ one. is_some (task_of one)) dos.now) }
{
    for one in dos {
        if task_of(one).is_some() {
            active.add(one.again())?;
        }
    }
    Ok(())
}

/// These dos, and then those of the template whose name none of them has, without noops.
fn active_beside<'a>(
    alloc: Global,
    deck: &'a GoodDeck,
    own: &[View<'a>],
) -> Result<Rows<View<'a>>, NoMemory>
    ensures { IfOk result (λ dos. dos ≡ active_beside deck.now own.now) }
{
    let others = template_dos(alloc, deck, own)?;
    let mut active = Rows::new(alloc);
    add_active(own, &mut active)?;
    add_active(others.as_slice(), &mut active)?;
    Ok(active)
}

/// The name and the label of a do.
fn label_in(alloc: Global, vars: &Vars, view: &View<'_>) -> Result<(Text, Text), NoMemory>
    ensures { IfOk result (λ pair. pair ≡ (do_name view.now, label_of vars.now view.now)) }
{
    let name = do_name(alloc, view)?;
    Ok((name, fill_value(alloc, vars, view, AttrName::Label)?))
}

/// The names and labels of the active dos of a card of the deck that has these dos of its own.
pub fn active_dos(
    alloc: Global,
    deck: &GoodDeck,
    own: &[View<'_>],
    vars: &Vars,
) -> Result<Rows<(Text, Text)>, NoMemory>
    ensures { IfOk result (λ dos. dos ≡ labels_beside vars.now deck.now own.now) }
{
    let dos = active_beside(alloc, deck, own)?;
    let mut labels = Rows::new(alloc);
    for one in dos.as_slice() {
        labels.add(label_in(alloc, vars, one)?)?;
    }
    Ok(labels)
}

/// Whether a do has a name.
fn is_named(alloc: Global, one: &View<'_>, name: &Text) -> Result<bool, NoMemory>
    ensures { IfOk result (λ is_so. is_so ≡ is_same_text name.now (do_name one.now)) }
{
    if name.is_empty() {
        return Ok(*name == do_name(alloc, one)?);
    }
    match named_value(one) {
        Some(value) => Ok(value.is_text(name)),
        None => Ok(false),
    }
}

/// The first do of a name that is no noop.
fn find_active<'a>(
    alloc: Global,
    dos: &[View<'a>],
    name: &Text,
) -> Result<Option<View<'a>>, NoMemory>
    ensures { IfOk result (λ found. found ≡ find (λ one. is_same_text name.now (do_name one))
        (filter (λ one. is_some (task_of one)) dos.now)) }
{
    for one in dos {
        let is_named = is_named(alloc, one, name)?;
        if is_named && task_of(one).is_some() {
            return Ok(Some(one.again()));
        }
    }
    Ok(None)
}

/// The first active do of a name: one of the card's, or else one of the template's.
#[tactic(auto, using(crate::proofs::Firsts::found_own, crate::proofs::Firsts::found_later))]
fn find_do<'a>(
    alloc: Global,
    deck: &'a GoodDeck,
    card: &View<'a>,
    name: &Text,
) -> Result<Option<View<'a>>, NoMemory>
    ensures { IfOk result (λ found. found ≡ find
        (λ one. is_same_text name.now (do_name one)) (active_dos deck.now card.now)) }
{
    let own = dos_in(alloc, card)?;
    if let Some(found) = find_active(alloc, own.as_slice(), name)? {
        return Ok(Some(found));
    }
    let others = template_dos(alloc, deck, own.as_slice())?;
    find_active(alloc, others.as_slice(), name)
}

/// The task of the active do of a name, filled. There is none where no active do has the name.
pub fn do_task(
    alloc: Global,
    deck: &GoodDeck,
    card: &View<'_>,
    name: &Text,
    vars: &Vars,
) -> Result<Option<Task>, NoMemory>
    ensures { IfOk result (λ task. task ≡ do_task vars.now deck.now card.now name.now) }
{
    match find_do(alloc, deck, card, name)? {
        Some(found) => task_in(alloc, vars, &found),
        None => Ok(None),
    }
}
