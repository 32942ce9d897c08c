//! What nodes begin with: the names of their attributes, and where their content begins.
ghost use Rattle.std.specs.Prelude.{◌≡◌, ℕ, List, ◌∷◌, ◌^◌, ◌<◌, ◌≤◌, length, drop, true, IfSome};
ghost use Rattle.wap_base.specs.declared.name.Part.{Part};
ghost use Rattle.wap_tokens.specs.declared.markup.name.AttrName.{AttrName};
ghost use Rattle.wap_tokens.specs.markup.Codes.{has_attributes, has_content};
ghost use Rattle.wap_deck.specs.good.Readers.{Ends, Leaves, IsBehind, first_of, closed, closed_if};
ghost use Rattle.wap_deck.specs.good.inside.Nodes.{attr_at, IsContent};
ghost use Rattle.wap_deck.specs.good.inside.Notes.{mark_place, lacks, HaveNames, LacksName, IsHead};

use crate::good::bits::after_bits;
use crate::good::front::{after_first, first, is_end};
use crate::good::head::kids_begin;
use crate::good::notes::Known;
use crate::good::skip::after_attrs;
use wap_tokens::attr_start;
use wap_tokens::markup::{AttrName, LITERAL};
use wap_wbxml::{has_attributes, has_content};

/// The mark of a name, one bit of 16. Several names have the same.
#[inline(always)]
fn name_mark(name: AttrName) -> u16
    ensures { result ≡ 2 ^ mark_place name }
{
    1 << (name as u16 % 16)
}

/// Whether marks tell that a name isn't among those that they are of.
#[inline(always)]
pub(crate) fn lacks(names: u16, name: AttrName) -> bool
    ensures { result ≡ lacks names name }
{
    names & name_mark(name) == 0
}

/// The name of the attribute that bytes begin with, if it has a code, and what follows it.
fn next_name(bytes: &[u8]) -> Option<(AttrName, &[u8])>
    ensures named { (table : List ℕ) → Ends (attr_at table) bytes.now → IfSome result (λ read.
        (parts : List Part) × (attr_at table bytes.now ≡ Some ((read.0, parts), read.1.now))) }
    ensures behind { IfSome result (λ read. IsBehind read.1.now bytes.now) }
    ensures shorter { IfSome result (λ read. length read.1.now < length bytes.now) }
{
    let (mark, rest) = first(bytes)?;
    if mark == LITERAL {
        return None;
    }
    let start = attr_start(0, mark)?;
    Some((start.0, after_bits(rest)))
}

/// The marks of the names of attributes, all marks where one has no code, and what follows the
/// attributes and their end.
fn names_in(bytes: &[u8]) -> (u16, &[u8])
    ensures names { HaveNames bytes.now result.0 }
    ensures exact { (table : List ℕ) → Leaves (closed (attr_at table)) bytes.now result.1.now }
    ensures behind { IsBehind result.1.now bytes.now }
{
    let mut names = 0;
    let mut rest = bytes;
    while let Some((name, behind)) = next_name(rest) {
        names |= name_mark(name);
        rest = behind;
    }
    if is_end(rest) {
        (names, after_first(rest))
    } else {
        (u16::MAX, after_attrs(bytes))
    }
}

/// The marks of the names that the attributes after a mark have, if it says that there are any, and
/// what follows them.
fn names_of(mark: u8, bytes: &[u8]) -> (u16, &[u8])
    ensures names { (name : AttrName) → lacks result.0 name ≡ true
        → LacksName (mark ∷ bytes.now) name }
    ensures exact { (table : List ℕ) →
        Leaves (closed_if (has_attributes mark) (attr_at table)) bytes.now result.1.now }
    ensures behind { IsBehind result.1.now bytes.now }
{
    if has_attributes(mark) {
        names_in(bytes)
    } else {
        (0, bytes)
    }
}

/// What is known of the node that bytes begin with by its mark alone: it may have any attributes,
/// or it has none; then its content, if it has one, follows the mark.
#[inline(always)]
pub(crate) fn known_at(bytes: &[u8]) -> Known
    ensures { IsHead bytes.now result.names result.head }
{
    match first(bytes) {
        Some((mark, _)) => known_by_mark(mark),
        None => known_with(0, 0),
    }
}

/// The names that are marked, and how many bytes stand before the content.
#[inline(always)]
fn known_with(names: u16, head: u8) -> Known
    ensures names { result.names ≡ names }
    ensures head { result.head ≡ head }
{
    Known {
        names,
        head,
        inside: 0,
    }
}

/// What is known of a node by its mark.
#[inline(always)]
fn known_by_mark(mark: u8) -> Known
    ensures { (rest : List ℕ) → IsHead (mark ∷ rest) result.names result.head }
{
    if has_attributes(mark) {
        return known_with(u16::MAX, 0);
    }
    if has_content(mark) {
        return known_with(0, 1);
    }
    known_with(0, 0)
}

/// How many bytes stand before the content of the node that bytes begin with, by its mark and what
/// follows its attributes; 0 where it has none, or 8 bits can't count them.
fn head_of(mark: u8, bytes: &[u8], content: &[u8]) -> u8
    requires content { has_content mark ≡ true → IsContent bytes.now content.now }
    requires behind { IsBehind content.now bytes.now }
    ensures content { 0 < result → IsContent bytes.now (drop result bytes.now) }
    ensures within { result ≤ length bytes.now }
{
    let size = bytes.len().saturating_sub(content.len());
    if !has_content(mark) || size > u8::MAX as usize {
        return 0;
    }
    size as u8
}

/// What is known of the node that bytes begin with, by its mark and what follows that, and what
/// follows its attributes.
pub(crate) fn known_of<'a>(bytes: &[u8], mark: u8, rest: &'a [u8]) -> (Known, &'a [u8])
    requires { first_of bytes.now ≡ Some (mark, rest.now) }
    ensures head { IsHead bytes.now result.0.names result.0.head }
    ensures exact { (table : List ℕ) →
        Leaves (closed_if (has_attributes mark) (attr_at table)) rest.now result.1.now }
    ensures behind { IsBehind result.1.now rest.now }
{
    let (names, content) = names_of(mark, rest);
    (known_with(names, head_of(mark, bytes, content)), content)
}

/// The content of the node that bytes begin with, and what follows it, where so many bytes stand
/// before it; 0 where that isn't known.
#[inline(always)]
pub(crate) fn content_of(head: u8, bytes: &[u8]) -> &[u8]
    requires known { 0 < head → IsContent bytes.now (drop head bytes.now) }
    requires within { head ≤ length bytes.now }
    ensures exact { IsContent bytes.now result.now }
    ensures behind { IsBehind result.now bytes.now }
{
    if head == 0 {
        return kids_begin(bytes);
    }
    &bytes[head as usize..]
}
