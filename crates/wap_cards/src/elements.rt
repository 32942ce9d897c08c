//! The elements of a card or a template that are looked for, in the order of the document.
ghost use Rattle.std.specs.Prelude.{◌≡◌, ◌++◌, ◌∷◌, [], filter, IfOk, OnOk};
ghost use Rattle.wap_cardrules.specs.Content.{begins, marks_in, kids_marks, content_of};
ghost use Rattle.wap_cards.specs.inside.Elements.{is_sought, sought_among};

use crate::content::is_open;
use crate::fields::is_field;
use std::alloc::Global;
use wap_base::{NoMemory, Rows};
use wap_deck::good::{Child, Tag, View};
use wap_tokens::markup::LEVEL_LIMIT;

/// What is looked for.
#[derive(Clone, Copy)]
pub(crate) enum Sought {
    /// Links, inputs and selects.
    Fields,
    /// Dos.
    Dos,
}

/// Whether an element is looked for.
fn is_sought(sought: Sought, view: &View<'_>) -> bool
    ensures { result ≡ is_sought sought view.now }
{
    match sought {
        Sought::Fields => is_field(view.tag()),
        Sought::Dos => view.tag() == Tag::Do,
    }
}

/// Appends an element, if it is looked for.
fn add_if_sought<'a>(
    sought: Sought,
    view: &View<'a>,
    found: &mut Rows<View<'a>>,
) -> Result<(), NoMemory>
    ensures { OnOk result
        (found.new ≡ found.old ++ filter (is_sought sought) (view.now ∷ [])) }
{
    if is_sought(sought, view) {
        found.add(view.again())?;
    }
    Ok(())
}

/// Appends what is looked for of an element and what shows in it, of so many levels.
#[cycle(elements)]
fn add_element<'a>(
    levels: u32,
    sought: Sought,
    view: &View<'a>,
    found: &mut Rows<View<'a>>,
) -> Result<(), NoMemory>
    ensures { OnOk result (found.new
        ≡ found.old ++ sought_among sought (begins view.now ∷ marks_in levels view.now)) }
{
    add_if_sought(sought, view, found)?;
    if levels == 0 {
        return Ok(());
    }
    if is_open(view.tag()) {
        add_elements(levels - 1, sought, view, found)
    } else {
        Ok(())
    }
}

/// Appends what is looked for in a node, its elements of so many levels.
#[cycle(elements)]
#[tactic(auto, using(crate::proofs::Found::element_steps))]
fn add_elements<'a>(
    levels: u32,
    sought: Sought,
    view: &View<'a>,
    found: &mut Rows<View<'a>>,
) -> Result<(), NoMemory>
    ensures { OnOk result (found.new
        ≡ found.old ++ sought_among sought (kids_marks (marks_in levels) view.now)) }
{
    for child in view.kids() {
        if let Child::Node(node) = child {
            add_element(levels, sought, &node, found)?;
        }
    }
    Ok(())
}

/// The elements of a card or a template that are looked for.
pub(crate) fn elements_of<'a>(
    alloc: Global,
    sought: Sought,
    view: &View<'a>,
) -> Result<Rows<View<'a>>, NoMemory>
    ensures { IfOk result (λ found. found ≡ sought_among sought (content_of view.now)) }
{
    let mut found = Rows::new(alloc);
    add_elements(LEVEL_LIMIT, sought, view, &mut found)?;
    Ok(found)
}
