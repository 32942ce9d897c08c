//! Selects, option by option.
ghost use Rattle.std.specs.Prelude.{◌≡◌, ◌∷◌, ◌++◌, map, IfOk, OnOk};
ghost use Rattle.std.specs.List.{flat_map, filter_map, zip, enumerate_from};
ghost use Rattle.wap_layout.specs.declared.flow.Flow.TheVariants as flows;
ghost use Rattle.wap_tokens.specs.markup.Trees.{words_of};
ghost use Rattle.wap_vars.specs.Filling.{filled};
ghost use Rattle.wap_cardrules.specs.Flow.{option_mark, option_flow, select_flow};

use crate::fill;
use crate::inputs::{choice_of, options_of};
use std::alloc::Global;
use wap_base::{NoMemory, Rows, Text};
use wap_deck::good::{Child, View};
use wap_layout::Flow;
use wap_vars::Vars;

/// `{n.m}`, and whether it is chosen.
fn option_mark(alloc: Global, select: u64, number: u64, is_chosen: bool) -> Result<Text, NoMemory>
    ensures { IfOk result (λ mark. mark ≡ option_mark select number is_chosen) }
{
    let mut mark = Text::new(alloc);
    mark.push('{')?;
    mark.add_number(select)?;
    mark.push('.')?;
    mark.add_number(number)?;
    mark.push('}')?;
    mark.push(if is_chosen { '+' } else { '-' })?;
    Ok(mark)
}

/// Appends the texts in an option.
#[tactic(auto, using(crate::proofs::FlowLemmas::Texts::text_steps))]
fn add_texts(
    alloc: Global,
    vars: &Vars,
    option: &View<'_>,
    flow: &mut Rows<Flow>,
) -> Result<(), NoMemory>
    ensures { OnOk result (flow.new ≡ flow.old
        ++ map (λ parts. flows.Words (filled vars.now parts))
        (filter_map words_of option.now.kids)) }
{
    for child in option.kids() {
        if let Child::Text(words) = child {
            flow.add(Flow::Words(fill(alloc, vars, words)?))?;
        }
    }
    Ok(())
}

/// Appends an option, after a soft break and its mark.
fn add_option(
    alloc: Global,
    vars: &Vars,
    mark: Text,
    option: &View<'_>,
    flow: &mut Rows<Flow>,
) -> Result<(), NoMemory>
    ensures { OnOk result (flow.new ≡ flow.old ++ flows.Soft ∷ flows.Words mark
        ∷ map (λ parts. flows.Words (filled vars.now parts))
        (filter_map words_of option.now.kids)) }
{
    flow.add(Flow::Soft)?;
    flow.add(Flow::Words(mark))?;
    add_texts(alloc, vars, option, flow)
}

/// Appends the options of a select, each with whether it is chosen.
#[tactic(auto, using(crate::proofs::FlowLemmas::Options::options_end))]
fn add_options(
    alloc: Global,
    vars: &Vars,
    select: u64,
    choice: &[bool],
    options: &[View<'_>],
    flow: &mut Rows<Flow>,
) -> Result<(), NoMemory>
    ensures { OnOk result (flow.new ≡ flow.old ++ flat_map (option_flow vars.now select)
        (enumerate_from 1 (zip choice.now options.now))) }
{
    for place in 0..choice.len().min(options.len()) {
        let mark = option_mark(alloc, select, place as u64 + 1, choice[place])?;
        add_option(alloc, vars, mark, &options[place], flow)?;
    }
    Ok(())
}

/// Appends what a select shows, which has a number: its options between soft breaks.
pub(crate) fn add_select(
    alloc: Global,
    vars: &Vars,
    number: u64,
    select: &View<'_>,
    flow: &mut Rows<Flow>,
) -> Result<(), NoMemory>
    ensures { OnOk result (flow.new ≡ flow.old ++ select_flow vars.now number select.now) }
{
    let choice = choice_of(alloc, vars, select)?;
    let options = options_of(alloc, select)?;
    add_options(
        alloc,
        vars,
        number,
        choice.as_slice(),
        options.as_slice(),
        flow,
    )?;
    flow.add(Flow::Soft)?;
    Ok(())
}
