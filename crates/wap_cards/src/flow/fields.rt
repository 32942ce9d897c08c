//! Links, inputs and selects, with their numbers.
ghost use Rattle.std.specs.Prelude.{◌≡◌, ◌++◌, IfOk, OnOk};
ghost use Rattle.wap_cardrules.specs.Flow.{link_mark, input_mark, field_flow};

use crate::flow::selects::add_select;
use crate::inputs::shown_text;
use std::alloc::Global;
use wap_base::{NoMemory, Rows, Text};
use wap_deck::good::{Tag, View};
use wap_layout::Flow;
use wap_vars::Vars;

/// `[n]`.
fn link_mark(alloc: Global, number: u64) -> Result<Text, NoMemory>
    ensures { IfOk result (λ mark. mark ≡ link_mark number) }
{
    let mut mark = Text::new(alloc);
    mark.push('[')?;
    mark.add_number(number)?;
    mark.push(']')?;
    Ok(mark)
}

/// `(n)` and the text of an input, between spaces.
fn input_mark(alloc: Global, vars: &Vars, number: u64, input: &View<'_>) -> Result<Text, NoMemory>
    ensures { IfOk result (λ mark. mark ≡ input_mark vars.now number input.now) }
{
    let text = shown_text(alloc, vars, input)?;
    let mut mark = Text::new(alloc);
    mark.push(' ')?;
    mark.push('(')?;
    mark.add_number(number)?;
    mark.push(')')?;
    mark.add(text.as_str())?;
    mark.push(' ')?;
    Ok(mark)
}

/// Appends what a field shows, which has a number.
pub(crate) fn add_field(
    alloc: Global,
    vars: &Vars,
    number: u64,
    field: &View<'_>,
    flow: &mut Rows<Flow>,
) -> Result<(), NoMemory>
    ensures { OnOk result (flow.new ≡ flow.old ++ field_flow vars.now number field.now) }
{
    if field.tag() == Tag::Input {
        let mark = input_mark(alloc, vars, number, field)?;
        return flow.add(Flow::Words(mark));
    }
    if field.tag() == Tag::Select {
        return add_select(alloc, vars, number, field, flow);
    }
    flow.add(Flow::Words(link_mark(alloc, number)?))
}
