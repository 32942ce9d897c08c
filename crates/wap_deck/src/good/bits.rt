//! Texts bit by bit, as their bytes stand in a deck.
ghost use Rattle.std.specs.Prelude.{◌≡◌, true, is_some, IfSome};
ghost use Rattle.std.specs.Str.{is_utf8};
ghost use Rattle.wap_deck.specs.good.Readers.{Reads, IsBehind};
ghost use Rattle.wap_deck.specs.good.Texts.{string_at, reference_at, character_at, part_at};
ghost use Rattle.wap_deck.specs.good.Texts.{part_end, behind_value, AreParts};
ghost use Rattle.wap_deck.specs.good.Runs.{part_of, IsOfKind};

use crate::good::front::{after_first, after_zero, first, split_at_zero};
use std::str;
use wap_base::Conv;
use wap_tokens::markup::{ENTITY, EXT_I_0, EXT_I_1, EXT_I_2, STR_I};

/// A bit of a text: some of its characters, at least one, or a reference to a variable.
/// Neighbouring characters belong to one literal.
#[derive(Clone, Copy)]
pub enum Bit<'a> {
    /// Characters that a string in place can hold: all but U+0000.
    Slice(&'a str),
    /// The character that no string in place can hold, U+0000.
    Char(char),
    /// The name of a variable, and how it is written out.
    Var(&'a str, Conv),
}

/// The next bit of a text, and what follows it.
#[tactic(auto, unfolding(crate::specs::good::Texts::part_at))]
#[inline(always)]
pub(crate) fn next_bit(bytes: &[u8]) -> Option<(Bit<'_>, &[u8])>
    requires { AreParts bytes.now }
    ensures exact { Reads (λ read. (part_of read.0, read.1.now)) result (part_at bytes.now) }
    ensures kind { IfSome result (λ read. IsOfKind read.0) }
{
    let (mark, rest) = first(bytes)?;
    match mark {
        STR_I => next_string(rest),
        ENTITY => next_character(rest),
        EXT_I_0 => next_reference(Conv::Escape, rest),
        EXT_I_1 => next_reference(Conv::Unescape, rest),
        EXT_I_2 => next_reference(Conv::Plain, rest),
        _ => None,
    }
}

/// The text whose UTF-8 bytes are.
fn text_of(bytes: &[u8]) -> &str
    requires { is_utf8 bytes.now ≡ true }
    ensures { result.now ≡ bytes.now }
{
    unsafe { str::from_utf8_unchecked(bytes) }
}

/// A string that has a character, and what follows it.
#[tactic(auto, unfolding(crate::specs::good::Texts::string_at))]
#[inline(always)]
fn next_string(bytes: &[u8]) -> Option<(Bit<'_>, &[u8])>
    requires { is_some (string_at bytes.now) ≡ true }
    ensures exact { Reads (λ read. (part_of read.0, read.1.now)) result (string_at bytes.now) }
    ensures kind { IfSome result (λ read. IsOfKind read.0) }
{
    let (string, rest) = split_at_zero(bytes)?;
    Some((Bit::Slice(text_of(string)), rest))
}

/// The character that no string in place can hold, and what follows its number.
#[inline(always)]
fn next_character(bytes: &[u8]) -> Option<(Bit<'_>, &[u8])>
    requires { is_some (character_at bytes.now) ≡ true }
    ensures exact { Reads (λ read. (part_of read.0, read.1.now)) result (character_at bytes.now) }
    ensures kind { IfSome result (λ read. IsOfKind read.0) }
{
    Some((Bit::Char('\0'), after_first(bytes)))
}

/// A reference to a variable, and what follows it.
#[tactic(auto, unfolding(crate::specs::good::Texts::reference_at))]
fn next_reference(conv: Conv, bytes: &[u8]) -> Option<(Bit<'_>, &[u8])>
    requires { is_some (reference_at conv bytes.now) ≡ true }
    ensures exact { Reads (λ read. (part_of read.0, read.1.now)) result
        (reference_at conv bytes.now) }
    ensures kind { IfSome result (λ read. IsOfKind read.0) }
{
    let (string, rest) = split_at_zero(bytes)?;
    Some((Bit::Var(text_of(string), conv), rest))
}

/// What follows a bit of a text, as its mark tells it.
#[tactic(auto, unfolding(crate::specs::good::Texts::part_end))]
pub(crate) fn after_bit(bytes: &[u8]) -> Option<&[u8]>
    ensures { Reads (λ rest. rest.now) result (part_end bytes.now) }
{
    let (mark, rest) = first(bytes)?;
    match mark {
        STR_I | EXT_I_0 | EXT_I_1 | EXT_I_2 => Some(after_zero(rest)),
        ENTITY => Some(after_first(rest)),
        _ => None,
    }
}

/// What follows the bits of a text, where no mark of a bit follows them.
pub(crate) fn after_bits(bytes: &[u8]) -> &[u8]
    ensures exact { part_end (behind_value bytes.now) ≡ None
        → result.now ≡ behind_value bytes.now }
    ensures behind { IsBehind result.now bytes.now }
{
    let mut rest = bytes;
    while let Some(behind) = after_bit(rest) {
        rest = behind;
    }
    rest
}
