//! Options that a user chooses (WAP-191, section 11.6.2).
ghost use Rattle.std.specs.Prelude.{◌≡◌, Some, IfOk, OnOk, OnErr};
ghost use Rattle.wap_cardrules.specs.Entering.{choose_option, choose_in, choose};
ghost use Rattle.wap_cardrules.specs.Selects.{choice_of, choice_with};
ghost use Rattle.wap_cardrules.specs.Setting.{set_choice};
ghost use Rattle.wap_cards.specs.inputs.Stopped.{FirstStand, chosen_sets, ChoiceStands};

use crate::inputs::choices::{choice_of, choice_with};
use crate::inputs::entering::field_with;
use crate::inputs::options::options_of;
use crate::inputs::sets::set_choice;
use crate::{numbered_view, onpick};
use std::alloc::Global;
use wap_base::{NoMemory, Rows};
use wap_cardrules::Chosen;
use wap_deck::good::{Tag, View};
use wap_vars::{VarFault, Vars};

/// The choice of a select with the option of a number.
fn new_choice(
    alloc: Global,
    vars: &Vars,
    select: &View<'_>,
    number: u16,
) -> Result<Rows<bool>, NoMemory>
    ensures { IfOk result (λ choice. choice
        ≡ choice_with select.now (choice_of vars.now select.now) number) }
{
    let choice = choice_of(alloc, vars, select)?;
    choice_with(alloc, select, choice.as_slice(), usize::from(number))
}

/// Sets what a select says with the option of a number, and tells which sets were refused.
#[tactic(auto, using(crate::proofs::InputsLemmas::Orders::none_stands, crate::proofs::InputsLemmas::Orders::all_stand))]
fn set_chosen(
    alloc: Global,
    select: &View<'_>,
    number: u16,
    vars: &mut Vars,
) -> Result<Rows<VarFault>, NoMemory>
    ensures set { OnOk result (vars.new
        ≡ (set_choice vars.old select.now
        (choice_with select.now (choice_of vars.old select.now) number)).vars) }
    ensures refused { IfOk result (λ refused. refused
        ≡ (set_choice vars.old select.now
        (choice_with select.now (choice_of vars.old select.now) number)).refused) }
    ensures stopped { OnErr result
        (FirstStand vars.old (chosen_sets vars.old number select.now) vars.new) }
{
    let choice = new_choice(alloc, vars, select, number)?;
    let mut refused = Rows::new(alloc);
    set_choice(alloc, select, choice.as_slice(), vars, &mut refused)?;
    Ok(refused)
}

/// Chooses an option of a select, whose number it has.
#[tactic(auto, using(crate::proofs::InputsLemmas::Orders::none_stands, crate::proofs::InputsLemmas::Orders::all_stand))]
fn choose_option(
    alloc: Global,
    select: &View<'_>,
    number: u16,
    option: &View<'_>,
    vars: &mut Vars,
) -> Result<Chosen, NoMemory>
    ensures vars { OnOk result (vars.new
        ≡ (choose_option vars.old select.now number (Some option.now)).vars) }
    ensures answer { IfOk result (λ chosen. chosen
        ≡ (choose_option vars.old select.now number (Some option.now)).answer) }
    ensures stopped { OnErr result
        (FirstStand vars.old (chosen_sets vars.old number select.now) vars.new) }
{
    let refused = set_chosen(alloc, select, number, vars)?;
    let task = onpick(alloc, vars, option)?;
    Ok(Chosen::Set(refused, task))
}

/// Chooses an option of a select by its number.
#[tactic(auto, using(crate::proofs::InputsLemmas::Orders::none_stands, crate::proofs::InputsLemmas::Orders::all_stand))]
fn choose_in(
    alloc: Global,
    select: &View<'_>,
    number: u16,
    vars: &mut Vars,
) -> Result<Chosen, NoMemory>
    ensures vars { OnOk result (vars.new ≡ (choose_in vars.old number (Some select.now)).vars) }
    ensures answer { IfOk result
        (λ chosen. chosen ≡ (choose_in vars.old number (Some select.now)).answer) }
    ensures stopped { OnErr result
        (FirstStand vars.old (chosen_sets vars.old number select.now) vars.new) }
{
    let options = options_of(alloc, select)?;
    match numbered_view(options.as_slice(), number) {
        Some(option) => choose_option(alloc, select, number, &option, vars),
        None => Ok(Chosen::NoOption),
    }
}

/// Chooses an option in the field of a number: in a multiple select it is then chosen or no longer,
/// else it alone is. Its task is filled when the variables are set. Without memory some first of
/// the sets stand.
#[tactic(auto, using(crate::proofs::InputsLemmas::Orders::none_stands, crate::proofs::InputsLemmas::Orders::all_stand))]
pub fn choose(
    alloc: Global,
    card: &View<'_>,
    field: u16,
    option: u16,
    vars: &mut Vars,
) -> Result<Chosen, NoMemory>
    ensures vars { OnOk result (vars.new ≡ (choose vars.old card.now field option).vars) }
    ensures answer { IfOk result
        (λ chosen. chosen ≡ (choose vars.old card.now field option).answer) }
    ensures stopped { OnErr result (ChoiceStands vars.old card.now field option vars.new) }
{
    match field_with(alloc, Tag::Select, card, field)? {
        Some(select) => choose_in(alloc, &select, option, vars),
        None => Ok(Chosen::NoOption),
    }
}
