//! Attributes, as their bytes stand in a deck.
ghost use Rattle.std.specs.Prelude.{◌≡◌, IfSome};
ghost use Rattle.std.specs.Map.{lookup};
ghost use Rattle.std.specs.Str.{chars, bytes_eq};
ghost use Rattle.wap_tokens.specs.markup.Tables.{attr_named};
ghost use Rattle.wap_tokens.specs.Rows.{attrs_by_name};
ghost use Rattle.wap_wbxml.specs.spelling.Spellable.{HasNoZero};
ghost use Rattle.wap_deck.specs.good.Readers.{Reads, Ends, all_of};
ghost use Rattle.wap_deck.specs.good.inside.Nodes.{named_at, start_at, attr_at};
ghost use Rattle.wap_deck.specs.good.inside.Starts.{start_seen, value_in};

use crate::good::bits::after_bits;
use crate::good::front::{first, number};
use crate::good::run::Run;
use wap_base::Bytes;
use wap_tokens::attr_start;
use wap_tokens::markup::{ATTR_NAMES, AttrName, LITERAL};
use wap_wbxml::string_from;

/// What an attribute begins with: its name, the text with which its value begins, and the bytes of
/// the rest of the value.
pub type Start<'a> = (AttrName, &'static str, &'a [u8]);

/// The attribute beside a name, by its bytes.
fn attr_beside(rows: &[(AttrName, &str)], name: &[u8]) -> Option<AttrName>
    ensures { result ≡ lookup (bytes_eq name.now) (attrs_by_name rows.now) }
{
    for row in rows {
        if name == row.1.as_bytes() {
            return Some(row.0);
        }
    }
    None
}

/// The attribute of a name, by its bytes.
fn attr_named(name: &[u8]) -> Option<AttrName>
    ensures { result ≡ attr_named name.now }
{
    attr_beside(&ATTR_NAMES, name)
}

/// A start by the index of its name in the string table.
#[tactic(auto, unfolding(crate::specs::good::inside::Nodes::named_at))]
fn named_start<'a>(table: &Bytes, bytes: &'a [u8]) -> Option<Start<'a>>
    ensures exact { Reads start_seen result (named_at table.now bytes.now) }
    ensures text { IfSome result (λ start. HasNoZero (chars start.1.now)) }
{
    let (index, rest) = number(bytes)?;
    let attr = attr_named(string_from(table.as_slice(), index as usize))?;
    Some((attr, "", rest))
}

/// The start of the next attribute.
#[tactic(auto, unfolding(crate::specs::good::inside::Nodes::start_at))]
#[inline(always)]
fn next_start<'a>(table: &Bytes, bytes: &'a [u8]) -> Option<Start<'a>>
    ensures exact { Reads start_seen result (start_at table.now bytes.now) }
    ensures text { IfSome result (λ start. HasNoZero (chars start.1.now)) }
{
    let (mark, rest) = first(bytes)?;
    if mark == LITERAL {
        return named_start(table, rest);
    }
    let (attr, text) = attr_start(0, mark)?;
    Some((attr, text, rest))
}

/// The value of the first attribute of that name.
// The first of all is looked at here, apart from the loop: mostly it is that one.
#[inline(never)]
pub(crate) fn find_attr<'a>(table: &Bytes, name: AttrName, bytes: &'a [u8]) -> Option<Run<'a>>
    requires { Ends (attr_at table.now) bytes.now }
    ensures { result ≡ value_in name (all_of (attr_at table.now) bytes.now).0 }
{
    match next_start(table, bytes) {
        Some((found, begun, value)) if found == name => Some(Run::value(begun, value)),
        _ => find_among(table, name, bytes),
    }
}

/// The same, one by one.
#[inline(never)]
fn find_among<'a>(table: &Bytes, name: AttrName, bytes: &'a [u8]) -> Option<Run<'a>>
    requires { Ends (attr_at table.now) bytes.now }
    ensures { result ≡ value_in name (all_of (attr_at table.now) bytes.now).0 }
{
    let mut rest = bytes;
    while let Some((found, begun, value)) = next_start(table, rest) {
        if found == name {
            return Some(Run::value(begun, value));
        }
        rest = after_bits(value);
    }
    None
}
