//! What follows attributes, nodes and texts, told by marks, zeros and lengths alone.
ghost use Rattle.std.specs.Prelude.{ℕ, ◌∷◌, List, drop};
ghost use Rattle.wap_tokens.specs.markup.Codes.{has_attributes};
ghost use Rattle.wap_deck.specs.good.Readers.{Leaves, Ends, IsBehind, number_at, closed, closed_if};
ghost use Rattle.wap_deck.specs.good.inside.Nodes.{attr_at, FollowsNode, FollowsContent};
ghost use Rattle.wap_deck.specs.good.inside.Nodes.{FollowsItems, FollowsItem};

use crate::good::bits::{after_bit, after_bits};
use crate::good::front::{after_first, first, is_end, number};
use wap_tokens::markup::LITERAL;
use wap_wbxml::{has_attributes, has_content};

/// What follows a number.
#[tactic(auto, unfolding(crate::specs::good::Readers::number_at))]
fn after_number(bytes: &[u8]) -> &[u8]
    ensures exact { Leaves number_at bytes.now result.now }
    ensures behind { IsBehind result.now bytes.now }
{
    match number(bytes) {
        Some((_, rest)) => rest,
        None => bytes,
    }
}

/// What follows the attribute that a mark begins.
fn after_attr(mark: u8, bytes: &[u8]) -> &[u8]
    ensures exact { (table : List ℕ) → let attr = attr_at table in
        Ends attr (mark ∷ bytes.now) → Leaves attr (mark ∷ bytes.now) result.now }
    ensures behind { IsBehind result.now bytes.now }
{
    if mark == LITERAL {
        after_bits(after_number(bytes))
    } else {
        after_bits(bytes)
    }
}

/// What follows attributes and their end.
// A call, so that a node without attributes takes none.
#[inline(never)]
pub(crate) fn after_attrs(bytes: &[u8]) -> &[u8]
    ensures exact { (table : List ℕ) → Leaves (closed (attr_at table)) bytes.now result.now }
    ensures behind { IsBehind result.now bytes.now }
{
    let mut rest = bytes;
    while !is_end(rest) {
        rest = match first(rest) {
            Some((mark, behind)) => after_attr(mark, behind),
            None => &[],
        };
    }
    after_first(rest)
}

/// What follows the attributes after a mark, if it says that there are any.
#[inline(always)]
pub(crate) fn after_head(mark: u8, bytes: &[u8]) -> &[u8]
    ensures exact { (table : List ℕ) →
        Leaves (closed_if (has_attributes mark) (attr_at table)) bytes.now result.now }
    ensures behind { IsBehind result.now bytes.now }
{
    if has_attributes(mark) {
        after_attrs(bytes)
    } else {
        bytes
    }
}

/// What follows a node of so many levels at most.
#[cycle(skip)]
pub(crate) fn after_node(levels: u32, bytes: &[u8]) -> &[u8]
    ensures exact { FollowsNode levels bytes.now result.now }
    ensures behind { IsBehind result.now (drop 1 bytes.now) }
{
    match first(bytes) {
        Some((mark, rest)) => after_content(levels, mark, after_head(mark, rest)),
        None => &[],
    }
}

/// What follows the content after a mark, if it says that there is any.
#[cycle(skip)]
fn after_content(levels: u32, mark: u8, bytes: &[u8]) -> &[u8]
    ensures exact { FollowsContent levels mark bytes.now result.now }
    ensures behind { IsBehind result.now bytes.now }
{
    if !has_content(mark) {
        return bytes;
    }
    if levels == 0 {
        return bytes;
    }
    after_kids(levels - 1, bytes)
}

/// What follows items of so many levels at most and their end.
#[cycle(skip)]
pub(crate) fn after_kids(levels: u32, bytes: &[u8]) -> &[u8]
    ensures exact { FollowsItems levels bytes.now result.now }
    ensures behind { IsBehind result.now bytes.now }
{
    let mut rest = bytes;
    while !is_end(rest) {
        rest = after_item(levels, rest);
    }
    after_first(rest)
}

/// What follows a text or a node of so many levels at most.
#[cycle(skip)]
fn after_item(levels: u32, bytes: &[u8]) -> &[u8]
    ensures exact { FollowsItem levels bytes.now result.now }
    ensures behind { IsBehind result.now (drop 1 bytes.now) }
{
    match after_bit(bytes) {
        Some(rest) => after_bits(rest),
        None => after_node(levels, bytes),
    }
}
