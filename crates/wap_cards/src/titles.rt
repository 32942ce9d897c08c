//! The title of a card (WAP-191, section 11.5).
ghost use Rattle.std.specs.Prelude.{◌≡◌, IfOk};
ghost use Rattle.wap_cardrules.specs.Flow.{title_of};

use crate::filling::fill_value;
use std::alloc::Global;
use wap_base::{NoMemory, Text};
use wap_deck::good::{AttrName, View};
use wap_vars::Vars;

/// The title of a card, filled; without one, the empty text.
pub fn title(alloc: Global, card: &View<'_>, vars: &Vars) -> Result<Text, NoMemory>
    ensures { IfOk result (λ title. title ≡ title_of vars.now card.now) }
{
    fill_value(alloc, vars, card, AttrName::Title)
}
