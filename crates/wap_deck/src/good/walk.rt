//! Walks over whole decks and texts.
ghost use Rattle.std.specs.Prelude.{◌≡◌};
ghost use Rattle.std.specs.List.{list_any};
ghost use Rattle.wap_tokens.specs.markup.Good.{nodes_in};
ghost use Rattle.wap_tokens.specs.markup.Tables.{is_same_tag};
ghost use Rattle.wap_deck.specs.good.Runs.{is_reference};

use crate::good::bits::Bit;
use crate::good::kids::Child;
use crate::good::run::Run;
use crate::good::view::View;
use wap_tokens::markup::Tag;

/// Whether a node of this tag stands in a node, at most so many levels below it.
#[tactic(auto, using(crate::proofs::GoodLemmas::Layers::found_here, crate::proofs::GoodLemmas::Layers::found_below, crate::proofs::GoodLemmas::Layers::found_behind, crate::proofs::GoodLemmas::Layers::found_after_text))]
pub fn holds_tagged(levels: u32, view: &View<'_>, tag: Tag) -> bool
    ensures { result ≡ list_any (λ node. is_same_tag node.tag tag) (nodes_in levels view.now.kids) }
{
    if levels == 0 {
        return false;
    }
    for child in view.kids() {
        if let Child::Node(node) = child {
            if node.tag() == tag {
                return true;
            }
            if holds_tagged(levels - 1, &node, tag) {
                return true;
            }
        }
    }
    false
}

/// Whether a reference to a variable stands in a text.
#[tactic(auto, using(crate::proofs::GoodLemmas::Layers::reference_first))]
pub fn has_reference(run: Run<'_>) -> bool
    ensures { result ≡ list_any is_reference run.entry }
{
    for bit in run {
        if let Bit::Var(_, _) = bit {
            return true;
        }
    }
    false
}
