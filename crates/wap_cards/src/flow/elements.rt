//! What stands before and after the content of elements that are no fields.
ghost use Rattle.std.specs.Prelude.{◌≡◌, ◌∷◌, [], ◌++◌, OnOk};
ghost use Rattle.wap_layout.specs.declared.flow.Flow.TheVariants as flows;
ghost use Rattle.wap_base.specs.Ascii.{space};
ghost use Rattle.wap_cardrules.specs.Flow.{flow_before, flow_behind};

use crate::fill_value;
use std::alloc::Global;
use wap_base::{NoMemory, Rows, Text};
use wap_deck::good::{AttrName, Tag, View};
use wap_layout::Flow;
use wap_vars::Vars;

/// Appends a space.
fn add_space(alloc: Global, flow: &mut Rows<Flow>) -> Result<(), NoMemory>
    ensures { OnOk result (flow.new ≡ flow.old ++ flows.Words (space ∷ []) ∷ []) }
{
    let mut text = Text::new(alloc);
    text.push(' ')?;
    flow.add(Flow::Words(text))
}

/// Appends what stands before the content of an element.
pub(crate) fn add_before(
    alloc: Global,
    vars: &Vars,
    node: &View<'_>,
    flow: &mut Rows<Flow>,
) -> Result<(), NoMemory>
    ensures { OnOk result (flow.new ≡ flow.old ++ flow_before vars.now node.now) }
{
    if node.tag() == Tag::Pre {
        return flow.add(Flow::Pre);
    }
    if node.tag() == Tag::Br {
        return flow.add(Flow::Hard);
    }
    if node.tag() == Tag::Img {
        let text = fill_value(alloc, vars, node, AttrName::Alt)?;
        return flow.add(Flow::Words(text));
    }
    add_edge(alloc, node.tag(), flow)
}

/// Appends what stands on both sides of a cell or a row.
pub(crate) fn add_edge(alloc: Global, tag: Tag, flow: &mut Rows<Flow>) -> Result<(), NoMemory>
    ensures { OnOk result (flow.new ≡ flow.old ++ flow_behind tag) }
{
    if tag == Tag::Td {
        return add_space(alloc, flow);
    }
    if tag == Tag::Tr {
        return flow.add(Flow::Soft);
    }
    Ok(())
}
