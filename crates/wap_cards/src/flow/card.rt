//! What a card shows and its dos, taken in one walk.
ghost use Rattle.std.specs.Prelude.{◌≡◌, IfOk};
ghost use Rattle.wap_cardrules.specs.Flow.{flow_of};
ghost use Rattle.wap_cardrules.specs.Dos.{dos_in};

use crate::flow::shown::Shown;
use crate::flow::walk::{Walk, take_kids};
use std::alloc::Global;
use wap_base::{NoMemory, Rows};
use wap_deck::good::View;
use wap_layout::Flow;
use wap_tokens::markup::LEVEL_LIMIT;
use wap_vars::Vars;

/// What a card shows: its words, with those of its fields, and the breaks and modes between them;
/// and beside that the card's own dos.
pub fn flow_and_dos<'a>(
    alloc: Global,
    card: &View<'a>,
    vars: &Vars,
) -> Result<(Rows<Flow>, Rows<View<'a>>), NoMemory>
    ensures flow { IfOk result (λ both. both.0 ≡ flow_of vars.now card.now) }
    ensures dos { IfOk result (λ both. both.1 ≡ dos_in card.now) }
{
    let mut walk = Walk {
        shown: Shown::new(alloc),
        dos: Rows::new(alloc),
    };
    take_kids(alloc, vars, LEVEL_LIMIT, card, &mut walk)?;
    let Walk { shown, dos } = walk;
    Ok((shown.into_flow(), dos))
}
