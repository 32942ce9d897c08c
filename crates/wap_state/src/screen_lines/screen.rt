//! The screen of a card (WAP-191, section 11.5).
ghost use Rattle.std.specs.Prelude.{◌≡◌, ◌++◌, ◌∷◌, [], map, OnOk, OnErr};
ghost use Rattle.wap_url.specs.Segments.{IsPrefix};
ghost use Rattle.wap_layout.specs.Calculation.{lines_of};
ghost use Rattle.wap_cardrules.specs.Flow.{flow_of, title_of};
ghost use Rattle.wap_cardrules.specs.Dos.{do_labels};
ghost use Rattle.wap_world.specs.declared.screen.TheConstants.{COLUMNS};
ghost use Rattle.wap_world.specs.Lines.{title_line, do_line};
ghost use Rattle.wap_world.specs.Screens.{screen};

use crate::screen_lines::lines::{do_line, title_line};
use std::alloc::Global;
use wap_base::{NoMemory, Rows, Text};
use wap_cards::flow::flow_and_dos;
use wap_cards::{active_dos, title};
use wap_deck::good::{GoodDeck, View};
use wap_layout::buffer::Lines;
use wap_layout::{Flow, lines as laid_lines};
use wap_vars::Vars;
use wap_world::COLUMNS;

/// Appends the line of a card's title.
fn add_title(alloc: Global, card: &View<'_>, vars: &Vars, lines: &mut Lines) -> Result<(), NoMemory>
    ensures ok { OnOk result
        (lines.new ≡ lines.old ++ title_line (title_of vars.now card.now) ∷ []) }
    ensures kept { OnErr result (lines.new ≡ lines.old) }
{
    let title = title(alloc, card, vars)?;
    lines.add(title_line(alloc, &title)?.as_str())
}

/// Appends the lines of a flow.
fn add_flow(alloc: Global, flow: Rows<Flow>, lines: &mut Lines) -> Result<(), NoMemory>
    ensures ok { OnOk result (lines.new ≡ lines.old ++ lines_of COLUMNS flow) }
    ensures kept { OnErr result (lines.new ≡ lines.old) }
{
    lines.append(&laid_lines(alloc, flow, COLUMNS)?)
}

/// Appends the lines of dos, of each by its name and its label.
fn add_dos(alloc: Global, dos: &[(Text, Text)], lines: &mut Lines) -> Result<(), NoMemory>
    ensures ok { OnOk result (lines.new ≡ lines.old ++ map do_line dos.now) }
    ensures left { OnErr result (IsPrefix lines.old lines.new) }
{
    for one in dos {
        lines.add(do_line(alloc, one)?.as_str())?;
    }
    Ok(())
}

/// Appends what a card shows, and the lines of its active dos.
fn add_card(
    alloc: Global,
    deck: &GoodDeck,
    card: &View<'_>,
    vars: &Vars,
    lines: &mut Lines,
) -> Result<(), NoMemory>
    ensures ok { OnOk result (lines.new ≡ lines.old ++ lines_of COLUMNS (flow_of vars.now card.now)
        ++ map do_line (do_labels vars.now deck.now card.now)) }
    ensures left { OnErr result (IsPrefix lines.old lines.new) }
{
    let (flow, own) = flow_and_dos(alloc, card, vars)?;
    add_flow(alloc, flow, lines)?;
    let dos = active_dos(alloc, deck, own.as_slice(), vars)?;
    add_dos(alloc, dos.as_slice(), lines)
}

/// Appends the screen of a card, which is one of the deck. When out of memory some of its lines may
/// be added.
pub fn add_screen(
    alloc: Global,
    deck: &GoodDeck,
    card: &View<'_>,
    vars: &Vars,
    lines: &mut Lines,
) -> Result<(), NoMemory>
    ensures ok { OnOk result (lines.new ≡ lines.old ++ screen vars.now deck.now card.now) }
    ensures left { OnErr result (IsPrefix lines.old lines.new) }
{
    add_title(alloc, card, vars, lines)?;
    add_card(alloc, deck, card, vars, lines)
}
