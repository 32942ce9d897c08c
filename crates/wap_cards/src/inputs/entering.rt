//! Texts that a user enters (WAP-191, section 11.6.3).
ghost use Rattle.std.specs.Prelude.{◌≡◌, Some, IfOk, OnOk, OnErr};
ghost use Rattle.wap_cardrules.specs.Fields.{field_with};
ghost use Rattle.wap_cardrules.specs.Entering.{entered_by, enter_in, enter_text};
ghost use Rattle.wap_vars.specs.Setting.{set_in};

use crate::inputs::inputs::{input_variable, takes};
use crate::{fields_of, numbered_view};
use std::alloc::Global;
use wap_base::{NoMemory, Text};
use wap_cardrules::Entered;
use wap_deck::good::{Tag, View};
use wap_vars::{VarFault, Vars};

/// The field of a number, if it has a tag.
pub(crate) fn field_with<'a>(
    alloc: Global,
    tag: Tag,
    card: &View<'a>,
    number: u16,
) -> Result<Option<View<'a>>, NoMemory>
    ensures { IfOk result (λ field. field ≡ field_with tag card.now number) }
{
    let fields = fields_of(alloc, card)?;
    match numbered_view(fields.as_slice(), number) {
        Some(field) => {
            if field.tag() == tag {
                Ok(Some(field))
            } else {
                Ok(None)
            }
        }
        None => Ok(None),
    }
}

/// Sets a variable to a text that an input takes.
fn set_text(vars: &mut Vars, name: &Text, text: Text) -> Result<Entered, NoMemory>
    ensures vars { OnOk result
        (vars.new ≡ (entered_by vars.old (set_in vars.old name.now text)).vars) }
    ensures answer { IfOk result
        (λ entered. entered ≡ (entered_by vars.old (set_in vars.old name.now text)).answer) }
    ensures kept { OnErr result (vars.new ≡ vars.old) }
{
    match vars.set(name, text) {
        Ok(()) => Ok(Entered::Set),
        Err(VarFault::BadName) => Ok(Entered::Refused),
        Err(VarFault::TooLong { bytes: _ }) => Ok(Entered::Refused),
        Err(VarFault::Full) => Ok(Entered::Full),
        Err(VarFault::NoMemory) => Err(NoMemory),
    }
}

/// Enters a text into an input.
fn enter_in(
    alloc: Global,
    input: &View<'_>,
    text: &Text,
    vars: &mut Vars,
) -> Result<Entered, NoMemory>
    ensures vars { OnOk result (vars.new ≡ (enter_in vars.old text.now (Some input.now)).vars) }
    ensures answer { IfOk result
        (λ entered. entered ≡ (enter_in vars.old text.now (Some input.now)).answer) }
    ensures kept { OnErr result (vars.new ≡ vars.old) }
{
    let is_taken = takes(alloc, vars, input, text)?;
    if is_taken {
        let name = input_variable(alloc, input)?;
        let copy = text.copy(alloc)?;
        set_text(vars, &name, copy)
    } else {
        Ok(Entered::Refused)
    }
}

/// Enters a text into the field of a number. Without memory nothing changes.
pub fn enter_text(
    alloc: Global,
    card: &View<'_>,
    number: u16,
    text: &Text,
    vars: &mut Vars,
) -> Result<Entered, NoMemory>
    ensures vars { OnOk result (vars.new ≡ (enter_text vars.old card.now number text.now).vars) }
    ensures answer { IfOk result
        (λ entered. entered ≡ (enter_text vars.old card.now number text.now).answer) }
    ensures kept { OnErr result (vars.new ≡ vars.old) }
{
    match field_with(alloc, Tag::Input, card, number)? {
        Some(input) => enter_in(alloc, &input, text, vars),
        None => Ok(Entered::NoInput),
    }
}
