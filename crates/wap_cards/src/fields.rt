//! The fields of a card (WAP-191, sections 9.8, 9.9 and 11.6).
ghost use Rattle.std.specs.Prelude.{◌≡◌, IfOk};
ghost use Rattle.wap_cardrules.specs.Fields.{is_field, fields_of, numbered};
ghost use Rattle.wap_cardrules.specs.Fields.{task_of_link, link_task};

use crate::elements::{Sought, elements_of};
use crate::filling::fill_value;
use crate::tasks::{go_to, task_in};
use std::alloc::Global;
use wap_base::{NoMemory, Rows};
use wap_cardrules::Task;
use wap_deck::good::{AttrName, Tag, View};
use wap_vars::Vars;

/// Whether an element is a link, an input or a select.
pub fn is_field(tag: Tag) -> bool
    ensures { result ≡ is_field tag }
{
    matches!(tag, Tag::A | Tag::Anchor | Tag::Input | Tag::Select)
}

/// The fields of a card, in the order of the document.
pub fn fields_of<'a>(alloc: Global, card: &View<'a>) -> Result<Rows<View<'a>>, NoMemory>
    ensures { IfOk result (λ fields. fields ≡ fields_of card.now) }
{
    elements_of(alloc, Sought::Fields, card)
}

/// The view of a number, from 1.
pub fn numbered_view<'a>(views: &[View<'a>], number: u16) -> Option<View<'a>>
    ensures { result ≡ numbered views.now number }
{
    if number == 0 {
        return None;
    }
    views.get(usize::from(number) - 1).map(|view| view.again())
}

/// The task of a link, filled.
fn task_of_link(alloc: Global, vars: &Vars, field: &View<'_>) -> Result<Option<Task>, NoMemory>
    ensures { IfOk result (λ task. task ≡ task_of_link vars.now field.now) }
{
    if field.tag() == Tag::A {
        let href = fill_value(alloc, vars, field, AttrName::Href)?;
        return Ok(Some(go_to(alloc, href)));
    }
    if field.tag() == Tag::Anchor {
        return task_in(alloc, vars, field);
    }
    Ok(None)
}

/// The task of the link of this number, filled. There is none where no field has the number, and
/// where that field is no link.
pub fn link_task(
    alloc: Global,
    card: &View<'_>,
    number: u16,
    vars: &Vars,
) -> Result<Option<Task>, NoMemory>
    ensures { IfOk result (λ task. task ≡ link_task vars.now card.now number) }
{
    let fields = fields_of(alloc, card)?;
    match numbered_view(fields.as_slice(), number) {
        Some(field) => task_of_link(alloc, vars, &field),
        None => Ok(None),
    }
}
