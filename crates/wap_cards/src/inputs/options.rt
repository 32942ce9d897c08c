//! The options of a select (WAP-191, section 11.6.2).
ghost use Rattle.std.specs.Prelude.{◌≡◌, ◌∷◌, [], ◌++◌, filter, IfOk, OnOk};
ghost use Rattle.wap_tokens.specs.markup.Good.{nodes_in};
ghost use Rattle.wap_tokens.specs.markup.Tables.{is_same_tag};
ghost use Rattle.wap_cardrules.specs.Selects.{options_of, values_of};

use crate::fill_value;
use std::alloc::Global;
use wap_base::{NoMemory, Rows, Text};
use wap_deck::good::{AttrName, Child, Tag, View};
use wap_tokens::markup::LEVEL_LIMIT;
use wap_vars::Vars;

/// Appends an option.
fn add_option<'a>(view: &View<'a>, options: &mut Rows<View<'a>>) -> Result<(), NoMemory>
    ensures { OnOk result (options.new
        ≡ options.old ++ filter (λ one. is_same_tag one.tag Tag.Option) (view.now ∷ [])) }
{
    if view.tag() == Tag::Option {
        options.add(view.again())?;
    }
    Ok(())
}

/// Appends the options in a node, at most so many levels below it.
#[tactic(auto, using(crate::proofs::InputsLemmas::Walks::option_steps))]
fn add_options<'a>(
    levels: u32,
    view: &View<'a>,
    options: &mut Rows<View<'a>>,
) -> Result<(), NoMemory>
    ensures { OnOk result (options.new ≡ options.old
        ++ filter (λ one. is_same_tag one.tag Tag.Option) (nodes_in levels view.now.kids)) }
{
    if levels == 0 {
        return Ok(());
    }
    for child in view.kids() {
        if let Child::Node(node) = child {
            add_option(&node, options)?;
            add_options(levels - 1, &node, options)?;
        }
    }
    Ok(())
}

/// The options of a select, those in groups too, in the order of the document.
pub fn options_of<'a>(alloc: Global, select: &View<'a>) -> Result<Rows<View<'a>>, NoMemory>
    ensures { IfOk result (λ options. options ≡ options_of select.now) }
{
    let mut options = Rows::new(alloc);
    add_options(LEVEL_LIMIT, select, &mut options)?;
    Ok(options)
}

/// The values of a select's options, filled.
pub(crate) fn values_of(
    alloc: Global,
    vars: &Vars,
    select: &View<'_>,
) -> Result<Rows<Text>, NoMemory>
    ensures { IfOk result (λ values. values ≡ values_of vars.now select.now) }
{
    let options = options_of(alloc, select)?;
    let mut values = Rows::new(alloc);
    for option in options.as_slice() {
        values.add(fill_value(alloc, vars, option, AttrName::Value)?)?;
    }
    Ok(values)
}
