//! The walk over a deck, in the order of the document.
ghost use Rattle.std.specs.Prelude.{◌≡◌, [], ◌∷◌, ◌++◌, suc, IfOk, OnOk};
ghost use Rattle.wap_tokens.specs.markup.Good.{rule_of};
ghost use Rattle.wap_tokens.specs.markup.Trees.{node_of, node_with};
ghost use Rattle.std.specs.Option.{option_to_list};
ghost use Rattle.std.specs.List.{filter_map};
ghost use Rattle.wap_deckcheck.specs.Places.{own_id, own_name, ids_among, names_among, path_behind};
ghost use Rattle.wap_deckcheck.specs.Places.{node_places, ids_level, items_places};
ghost use Rattle.wap_deckcheck.specs.Faults.{is_misplaced, is_taken, fault_if, own_faults};
ghost use Rattle.wap_deckcheck.specs.Faults.{lacks_card, faults, Judges};
ghost use Rattle.wap_deckcheck.specs.Reached.{HasReached};
ghost use Rattle.wap_deckcheck.specs.inside.Walks.{judged, inner_faults, item_faults, top_places};

use crate::DeckFault;
use crate::fault::{Kind, fault_at};
use crate::forms::{has_twice, wrong_value};
use crate::names::{Label, Names, own_id, own_name};
use crate::rules::{Rule, has_needs, holds_dos};
use std::alloc::Global;
use std::mem::replace;
use wap_base::Rows;
use wap_tokens::markup::{Deck, Item, LEVEL_LIMIT, Node, Tag};

/// Where a walk is, and the ids or names that are taken there.
#[derive(Drop)]
pub struct Walk<'a> {
    path: Rows<usize>,
    names: Names<'a>,
}

/// Judges whether an item may stand after others, and tells what is reached with it.
fn judge_place(
    alloc: Global,
    path: &Rows<usize>,
    rule: &Rule,
    reached: usize,
    earlier: &[Item],
    item: &Item,
) -> Result<usize, DeckFault>
    requires { HasReached rule.now earlier.now reached }
    ensures faults { Judges result
        (fault_if (is_misplaced rule.now earlier.now item.now) (DeckFault.Child path.now)) }
    ensures reached { IfOk result (HasReached rule.now (earlier.now ++ item.now ∷ [])) }
{
    match rule.reach_item(reached, earlier, item) {
        Some(next) => Ok(next),
        None => Err(fault_at(alloc, Kind::Child, path)),
    }
}

/// Judges a node by itself, by its rule.
fn judge_node(alloc: Global, path: &Rows<usize>, rule: &Rule, node: &Node) -> Result<(), DeckFault>
    requires { rule.now ≡ rule_of node.now.tag }
    ensures { Judges result (own_faults path.now node.now) }
{
    if has_twice(node.attrs.as_slice()) {
        return Err(fault_at(alloc, Kind::Attr, path));
    }
    if !has_needs(rule, node) {
        return Err(fault_at(alloc, Kind::Missing, path));
    }
    if wrong_value(node).is_some() {
        return Err(fault_at(alloc, Kind::Value, path));
    }
    Ok(())
}

/// Takes an id or a name, if there is one.
fn take_name<'a>(
    alloc: Global,
    label: Option<Label<'a>>,
    walk: &mut Walk<'a>,
) -> Result<(), DeckFault>
    ensures faults { Judges result
        (fault_if (is_taken walk.old.names label.entry) (DeckFault.DuplicateId walk.old.path)) }
    ensures taken { OnOk result (walk.new
        ≡ record walk.old { names = walk.old.names ++ option_to_list label.entry }) }
{
    if walk.names.take(label)? {
        return Err(fault_at(alloc, Kind::DuplicateId, &walk.path));
    }
    Ok(())
}

/// Judges an item by what it is: a text has no faults, and a node is judged by what it has and by
/// what is in it.
#[cycle(walk)]
fn judge_item<'a>(
    alloc: Global,
    levels: u32,
    apart: bool,
    walk: &mut Walk<'a>,
    item: &'a Item,
) -> Result<(), DeckFault>
    ensures faults { Judges result
        (inner_faults (own_name apart) (node_places levels apart) walk.old.names walk.old.path
        (node_of item.now)) }
    ensures walked { OnOk result (walk.new ≡ record walk.old {
      names = walk.old.names ++ names_among apart (suc levels) (item.now ∷ []);
    }) }
{
    match item {
        Item::Text(_) => Ok(()),
        Item::Node(node) => {
            let rule = Rule::of(node.tag);
            judge_node(alloc, &walk.path, &rule, node)?;
            take_name(alloc, own_name(apart, node), walk)?;
            judge_kids(alloc, levels, apart, walk, &rule, node)
        }
    }
}

/// Judges a child after others, and tells what is reached with it.
#[cycle(walk)]
fn judge_child<'a>(
    alloc: Global,
    levels: u32,
    apart: bool,
    walk: &mut Walk<'a>,
    rule: &Rule,
    reached: usize,
    earlier: &[Item],
    item: &'a Item,
) -> Result<usize, DeckFault>
    requires { HasReached rule.now earlier.now reached }
    ensures faults { Judges result
        (item_faults (own_name apart) (node_places levels apart) walk.old.names
        (path_behind walk.old.path earlier.now) rule.now earlier.now item.now) }
    ensures reached { IfOk result (HasReached rule.now (earlier.now ++ item.now ∷ [])) }
    ensures walked { OnOk result (walk.new ≡ record walk.old {
      names = walk.old.names ++ names_among apart (suc levels) (item.now ∷ []);
    }) }
{
    walk.path.add(earlier.len())?;
    let next = judge_place(alloc, &walk.path, rule, reached, earlier, item)?;
    judge_item(alloc, levels, apart, walk, item)?;
    walk.path.pop();
    Ok(next)
}

/// Judges what is in a node, of so many levels, by the node's rule.
#[cycle(walk)]
fn judge_kids<'a>(
    alloc: Global,
    levels: u32,
    apart: bool,
    walk: &mut Walk<'a>,
    rule: &Rule,
    node: &'a Node,
) -> Result<(), DeckFault>
    requires { rule.now ≡ rule_of node.now.tag }
    ensures faults { Judges result
        (judged (node_places levels apart walk.old.names walk.old.path node.now)) }
    ensures walked { OnOk result (walk.new ≡ record walk.old {
      names = walk.old.names ++ names_among apart levels node.now.kids;
    }) }
{
    if levels == 0 {
        return Ok(());
    }
    let kids = node.kids.as_slice();
    let mut reached = 0;
    for (number, item) in kids.iter().enumerate() {
        let earlier = &kids[..number];
        reached = judge_child(alloc, levels - 1, apart, walk, rule, reached, earlier, item)?;
    }
    Ok(())
}

/// Judges whatever stands right under the root, its id among those before it.
fn judge_top_item<'a>(alloc: Global, walk: &mut Walk<'a>, item: &'a Item) -> Result<(), DeckFault>
    ensures faults { Judges result
        (inner_faults own_id top_places walk.old.names walk.old.path (node_of item.now)) }
    ensures walked { OnOk result (walk.new ≡ record walk.old {
      names = walk.old.names ++ ids_among (item.now ∷ []);
    }) }
{
    match item {
        Item::Text(_) => Ok(()),
        Item::Node(node) => {
            let rule = Rule::of(node.tag);
            judge_node(alloc, &walk.path, &rule, node)?;
            take_name(alloc, own_id(node), walk)?;
            let path = replace(&mut walk.path, Rows::new(alloc));
            let names = Names::new(alloc);
            let mut within = Walk { path, names };
            judge_kids(
                alloc,
                LEVEL_LIMIT,
                holds_dos(node.tag),
                &mut within,
                &rule,
                node,
            )?;
            walk.path = within.path;
            Ok(())
        }
    }
}

/// Judges a child of the root after others, and tells what is reached with it.
fn judge_top_child<'a>(
    alloc: Global,
    walk: &mut Walk<'a>,
    rule: &Rule,
    reached: usize,
    earlier: &[Item],
    item: &'a Item,
) -> Result<usize, DeckFault>
    requires { HasReached rule.now earlier.now reached }
    ensures faults { Judges result
        (item_faults own_id top_places walk.old.names
        (path_behind walk.old.path earlier.now) rule.now earlier.now item.now) }
    ensures reached { IfOk result (HasReached rule.now (earlier.now ++ item.now ∷ [])) }
    ensures walked { OnOk result (walk.new ≡ record walk.old {
      names = walk.old.names ++ ids_among (item.now ∷ []);
    }) }
{
    walk.path.add(earlier.len())?;
    let next = judge_place(alloc, &walk.path, rule, reached, earlier, item)?;
    judge_top_item(alloc, walk, item)?;
    walk.path.pop();
    Ok(next)
}

/// Judges what is in the root.
fn judge_top(alloc: Global, root: &Node) -> Result<(), DeckFault>
    ensures { Judges result
        (judged (items_places ids_level [] (rule_of root.now.tag) [] root.now.kids)) }
{
    let path = Rows::new(alloc);
    let names = Names::new(alloc);
    let mut walk = Walk { path, names };
    let rule = Rule::of(root.tag);
    let kids = root.kids.as_slice();
    let mut reached = 0;
    for (number, item) in kids.iter().enumerate() {
        let earlier = &kids[..number];
        reached = judge_top_child(alloc, &mut walk, &rule, reached, earlier, item)?;
    }
    Ok(())
}

/// Whether there is no card among items.
#[tactic(auto, using(wap_deck::proofs::GoodLemmas::Layers::out_node, wap_deck::proofs::GoodLemmas::Layers::out_text))]
fn lacks_card(items: &[Item]) -> bool
    ensures { result ≡ lacks_card (filter_map (node_with Tag.Card) items.now) }
{
    for item in items {
        if let Item::Node(node) = item {
            if node.tag == Tag::Card {
                return false;
            }
        }
    }
    true
}

/// Goes over a whole deck.
pub(crate) fn walk_deck(alloc: Global, deck: &Deck) -> Result<(), DeckFault>
    ensures { Judges result (faults deck.now) }
{
    let path = Rows::new(alloc);
    if deck.root.tag != Tag::Wml {
        return Err(DeckFault::Child { path });
    }
    judge_node(alloc, &path, &Rule::of(deck.root.tag), &deck.root)?;
    judge_top(alloc, &deck.root)?;
    if lacks_card(deck.root.kids.as_slice()) {
        return Err(DeckFault::NoCard);
    }
    Ok(())
}
