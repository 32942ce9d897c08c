//! Texts and values of attributes, read bit by bit.
ghost use Rattle.std.specs.Prelude.{◌≡◌, ◌↔◌, IsTrue, [], Some, IfSome};
ghost use Rattle.std.specs.Str.{chars};
ghost use Rattle.wap_tokens.specs.markup.Trees.{plain_text, is_text};
ghost use Rattle.wap_wbxml.specs.spelling.Spellable.{HasNoZero};
ghost use Rattle.wap_deck.specs.good.Texts.{part_at, value_at, AreParts, IsRun};
ghost use Rattle.wap_deck.specs.good.Runs.{FindsBit, TakesPart, IsOfKind, part_of};

use crate::good::bits::{Bit, next_bit};
use std::marker::Model;
use wap_base::Text;

/// A text, or the value of an attribute. A contract sees the parts that are still to come,
/// neighbouring literals joined.
#[derive(Drop)]
pub struct Run<'a> {
    /// What stands before the bytes; a value may begin with a text that has a code.
    begun: &'a str,
    bytes: &'a [u8],
}

impl<'a> Model for Run<'a> {
    ghost use Rattle.std.specs.Prelude.{List};
    ghost use Rattle.std.specs.Str.{chars};
    ghost use Rattle.wap_base.specs.declared.name.Part.{Part};
    ghost use Rattle.wap_deck.specs.good.Texts.{value_at, IsRun};

    ghost Value = { List Part };

    ghost view = { λ run. value_at (chars run.begun.now) run.bytes.now };

    ghost invariant = { λ run. IsRun run.begun.now run.bytes.now };
}

impl<'a> Run<'a> {
    /// The run of a text.
    pub(crate) fn text(bytes: &'a [u8]) -> Run<'a>
        requires { AreParts bytes.now }
        ensures { result ≡ value_at [] bytes.now }
    {
        Run { begun: "", bytes }
    }

    /// The run of a text by its first bit and what follows that.
    pub(crate) fn begun_by(bit: Bit<'a>, bytes: &'a [u8], rest: &'a [u8]) -> Run<'a>
        requires bit { part_at bytes.now ≡ Some (part_of bit, rest.now) }
        requires kind { IsOfKind bit }
        requires parts { AreParts bytes.now }
        ensures { result ≡ value_at [] bytes.now }
    {
        match bit {
            Bit::Slice(text) => Run::value(text, rest),
            Bit::Char(_) | Bit::Var(_, _) => Run::text(bytes),
        }
    }

    /// The run of a value that begins with a text.
    pub(crate) fn value(begun: &'a str, bytes: &'a [u8]) -> Run<'a>
        requires text { HasNoZero (chars begun.now) }
        requires parts { AreParts bytes.now }
        ensures { result ≡ value_at (chars begun.now) bytes.now }
    {
        Run { begun, bytes }
    }

    /// The same run once more.
    pub fn again(&self) -> Run<'a>
        ensures { result ≡ self.now }
    {
        Run {
            begun: self.begun,
            bytes: self.bytes,
        }
    }

    /// Whether no part is to come, without a text being gone through.
    pub fn is_empty(&self) -> bool
        ensures { IsTrue result ↔ (self.now ≡ []) }
    {
        match first_bit(self.begun, self.bytes) {
            Some(_) => false,
            None => true,
        }
    }

    /// Whether it is this text, without a reference.
    pub fn is_text(&self, text: &Text) -> bool
        ensures { result ≡ is_text text.now (plain_text self.now) }
    {
        let mut left = text.as_str().as_bytes();
        for bit in self.again() {
            match rest_after(bit, left) {
                Some(rest) => left = rest,
                None => return false,
            }
        }
        left.is_empty()
    }
}

/// The first bit of a value that begins with a text, and the bytes after it.
#[inline(always)]
fn first_bit<'a>(begun: &'a str, bytes: &'a [u8]) -> Option<(Bit<'a>, &'a [u8])>
    requires { IsRun begun.now bytes.now }
    ensures bit { FindsBit (value_at (chars begun.now) bytes.now) result }
    ensures rest { IfSome result (λ read. AreParts read.1.now) }
{
    if !begun.as_bytes().is_empty() {
        return Some((Bit::Slice(begun), bytes));
    }
    next_bit(bytes)
}

/// What follows a bit in the UTF-8 of a text, where it begins with the bit's.
fn rest_after<'a>(bit: Bit<'_>, text: &'a [u8]) -> Option<&'a [u8]>
    ensures { TakesPart (part_of bit.entry) text.now result }
{
    match bit {
        Bit::Slice(first) => text.strip_prefix(first.as_bytes()),
        Bit::Char(first) => {
            let mut bytes = [0; 4];
            text.strip_prefix(first.encode_utf8(&mut bytes).as_bytes())
        }
        Bit::Var(_, _) => None,
    }
}

impl<'a> Iterator for Run<'a> {
    type Item = Bit<'a>;

    ghost use Rattle.wap_deck.specs.good.Runs.{GivesBit, parts_left};

    ghost next_gives = { GivesBit };

    ghost remaining = { parts_left };

    #[inline(always)]
    fn next(&mut self) -> Option<Bit<'a>> {
        let begun = self.begun;
        let bytes = self.bytes;
        let (bit, rest) = first_bit(begun, bytes)?;
        *self = Run::text(rest);
        Some(bit)
    }
}
