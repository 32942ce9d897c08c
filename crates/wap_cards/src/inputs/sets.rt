//! Setting what a choice says (WAP-191, section 11.6.2).
ghost use Rattle.std.specs.Prelude.{◌≡◌, ◌++◌, IfOk, OnOk, OnErr};
ghost use Rattle.std.specs.Option.{option_to_list};
ghost use Rattle.wap_cardrules.specs.Setting.{set_all, choice_sets, set_choice};
ghost use Rattle.wap_cards.specs.inputs.Stopped.{FirstStand};

use crate::inputs::chosen::{choice_text, index_text, set_under};
use crate::inputs::setting::set_if;
use std::alloc::Global;
use wap_base::{NoMemory, Rows, Text};
use wap_deck::good::{AttrName, View};
use wap_vars::{VarFault, Vars};

/// A variable and its text, where there is one.
type Set = Option<(Text, Text)>;

/// What a choice sets: the variable of `iname`, and that of `name`.
fn choice_sets(
    alloc: Global,
    vars: &Vars,
    select: &View<'_>,
    choice: &[bool],
) -> Result<(Set, Set), NoMemory>
    ensures { IfOk result (λ sets. option_to_list sets.0 ++ option_to_list sets.1
        ≡ choice_sets vars.now select.now choice.now) }
{
    let text = index_text(alloc, choice)?;
    let index = set_under(alloc, select, AttrName::Iname, text)?;
    let text = choice_text(alloc, vars, select, choice)?;
    Ok((index, set_under(alloc, select, AttrName::Name, text)?))
}

/// Sets two variables, one after the other, where there are such.
#[tactic(auto, using(crate::proofs::InputsLemmas::Orders::set_after, crate::proofs::InputsLemmas::Orders::refused_after, crate::proofs::InputsLemmas::Orders::none_stands, crate::proofs::InputsLemmas::Orders::first_stands))]
fn set_both(
    vars: &mut Vars,
    first: Set,
    second: Set,
    refused: &mut Rows<VarFault>,
) -> Result<(), NoMemory>
    ensures set { OnOk result (vars.new
        ≡ (set_all vars.old (option_to_list first ++ option_to_list second)).vars) }
    ensures refused { OnOk result (refused.new ≡ refused.old
        ++ (set_all vars.old (option_to_list first ++ option_to_list second)).refused) }
    ensures stopped { OnErr result
        (FirstStand vars.old (option_to_list first ++ option_to_list second) vars.new) }
{
    match set_if(vars, first, refused) {
        Ok(()) => set_if(vars, second, refused),
        Err(NoMemory) => Err(NoMemory),
    }
}

/// Sets what a choice says: the variable of `iname`, and then that of `name`, where there are
/// such.
pub(crate) fn set_choice(
    alloc: Global,
    select: &View<'_>,
    choice: &[bool],
    vars: &mut Vars,
    refused: &mut Rows<VarFault>,
) -> Result<(), NoMemory>
    ensures set { OnOk result (vars.new ≡ (set_choice vars.old select.now choice.now).vars) }
    ensures refused { OnOk result
        (refused.new ≡ refused.old ++ (set_choice vars.old select.now choice.now).refused) }
    ensures stopped { OnErr result
        (FirstStand vars.old (choice_sets vars.old select.now choice.now) vars.new) }
{
    let (index, value) = choice_sets(alloc, vars, select, choice)?;
    set_both(vars, index, value, refused)
}
