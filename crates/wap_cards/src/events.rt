//! The tasks that events set off (WAP-191, section 9.10).
ghost use Rattle.std.specs.Prelude.{◌≡◌, IfOk};
ghost use Rattle.std.specs.Str.{chars};
ghost use Rattle.std.specs.Option.{option_and_then, option_flatten};
ghost use Rattle.wap_cardrules.specs.Events.{named, bound_in};
ghost use Rattle.wap_cardrules.specs.Events.{template_of, binding, onpick};
ghost use Rattle.wap_cards.specs.inside.Onevents.{is_onevent, onevent_in};

use crate::filling::value_if;
use crate::tasks::{go_to, task_in};
use crate::values::{is_word, plain_value};
use std::alloc::Global;
use wap_base::NoMemory;
use wap_cardrules::{Event, Task};
use wap_deck::good::{AttrName, Child, GoodDeck, Tag, View};
use wap_vars::Vars;

/// The type of an onevent for an event.
fn type_of(event: Event) -> &'static str
    ensures { chars result.now ≡ (named event).type }
{
    match event {
        Event::Forward => "onenterforward",
        Event::Backward => "onenterbackward",
        Event::Timer => "ontimer",
    }
}

/// The attribute for an event.
fn attribute_of(event: Event) -> AttrName
    ensures { result ≡ (named event).attribute }
{
    match event {
        Event::Forward => AttrName::Onenterforward,
        Event::Backward => AttrName::Onenterbackward,
        Event::Timer => AttrName::Ontimer,
    }
}

/// Whether a node is an onevent of a type.
fn is_onevent(alloc: Global, view: &View<'_>, kind: &str) -> Result<bool, NoMemory>
    ensures { IfOk result (λ is_so. is_so ≡ is_onevent (chars kind.now) view.now) }
{
    if view.tag() != Tag::Onevent {
        return Ok(false);
    }
    let own = plain_value(alloc, view, AttrName::Type)?;
    Ok(is_word(own.as_ref(), kind))
}

/// The first onevent of a type.
#[tactic(auto, using(crate::proofs::Onevents::onevent_steps))]
fn onevent_for<'a>(alloc: Global, view: &View<'a>, kind: &str) -> Result<Option<View<'a>>, NoMemory>
    ensures { IfOk result (λ found. found ≡ onevent_in (chars kind.now) view.now.kids) }
{
    for child in view.kids() {
        if let Child::Node(node) = child {
            if is_onevent(alloc, &node, kind)? {
                return Ok(Some(node));
            }
        }
    }
    Ok(None)
}

/// The binding of an event in an element, if there is one, and its task, if that is no noop.
fn bound_in(
    alloc: Global,
    vars: &Vars,
    view: &View<'_>,
    kind: &str,
    attribute: AttrName,
) -> Result<Option<Option<Task>>, NoMemory>
    ensures { IfOk result (λ bound. bound
        ≡ bound_in vars.now (record { type = chars kind.now; attribute = attribute }) view.now) }
{
    if let Some(onevent) = onevent_for(alloc, view, kind)? {
        return Ok(Some(task_in(alloc, vars, &onevent)?));
    }
    match value_if(alloc, vars, view, attribute)? {
        Some(href) => Ok(Some(Some(go_to(alloc, href)))),
        None => Ok(None),
    }
}

/// The template of a deck.
pub(crate) fn template_of(deck: &GoodDeck) -> Option<View<'_>>
    ensures { result ≡ template_of deck.now }
{
    deck.template()
}

/// The task that a template binds to an event.
fn binding_in_template(
    alloc: Global,
    deck: &GoodDeck,
    event: Event,
    vars: &Vars,
) -> Result<Option<Task>, NoMemory>
    ensures { IfOk result (λ task. task ≡ option_flatten
        (option_and_then (bound_in vars.now (named event)) (template_of deck.now))) }
{
    match template_of(deck) {
        Some(template) => {
            let bound = bound_in(alloc, vars, &template, type_of(event), attribute_of(event))?;
            Ok(bound.flatten())
        }
        None => Ok(None),
    }
}

/// The task that the event of a card sets off, filled. There is none without a binding, and where
/// it is a noop.
pub fn binding(
    alloc: Global,
    deck: &GoodDeck,
    card: &View<'_>,
    event: Event,
    vars: &Vars,
) -> Result<Option<Task>, NoMemory>
    ensures { IfOk result (λ task. task ≡ binding vars.now deck.now card.now event) }
{
    match bound_in(alloc, vars, card, type_of(event), attribute_of(event))? {
        Some(task) => Ok(task),
        None => binding_in_template(alloc, deck, event, vars),
    }
}

/// The task that an option sets off when it is chosen, filled.
pub fn onpick(alloc: Global, vars: &Vars, option: &View<'_>) -> Result<Option<Task>, NoMemory>
    ensures { IfOk result (λ task. task ≡ onpick vars.now option.now) }
{
    let bound = bound_in(alloc, vars, option, "onpick", AttrName::Onpick)?;
    Ok(bound.flatten())
}
