//! What an item begins with: a byte and its page, numbers, strings and names.
ghost use Rattle.std.specs.Prelude.{◌≡◌, ◌≤◌, ◌<◌, length, None, Some, MatchOption};
ghost use Rattle.wap_base.specs.Outcome.{Meets};
ghost use Rattle.wap_tokens.specs.markup.Charsets.{is_character};
ghost use Rattle.wap_tokens.specs.markup.Strings.{string_from};
ghost use Rattle.wap_wbxml.specs.declared.fault.DocFault.TheVariants.{NoMemory};
ghost use Rattle.wap_wbxml.specs.reading.Fronts.{lead_in, lead_at, number_at, opaque_at};
ghost use Rattle.wap_wbxml.specs.reading.Fronts.{character_at, zero_place, inline_at, indexed_at};
ghost use Rattle.wap_wbxml.specs.reading.Fronts.{name_at};

use crate::DocFault;
use crate::input::Input;
use crate::state::State;
use std::alloc::Global;
use wap_base::{ReadFault, Text, place, read_mb};
use wap_tokens::markup::{Lead, SWITCH_PAGE};

/// The byte that an item begins with, if there is one, with its page: this one, or the one after a
/// switch.
pub(crate) fn find_lead(page: u8, bytes: &[u8]) -> Option<(Lead, &[u8])>
    ensures { MatchOption result (lead_in page bytes.now ≡ None)
        (λ read. lead_in page bytes.now ≡ Some (read.0, read.1.now)) }
{
    let (byte, rest) = bytes.split_first()?;
    if *byte != SWITCH_PAGE {
        let lead = Lead {
            switched: false,
            page,
            byte: *byte,
        };
        return Some((lead, rest));
    }
    let (next, rest) = rest.split_first()?;
    let (byte, rest) = rest.split_first()?;
    let lead = Lead {
        switched: true,
        page: *next,
        byte: *byte,
    };
    Some((lead, rest))
}

/// The same, where there has to be one.
#[tactic(auto, unfolding(crate::specs::reading::Fronts::lead_at))]
pub(crate) fn read_lead(total: usize, page: u8, bytes: &[u8]) -> Result<(Lead, &[u8]), DocFault>
    ensures { Meets NoMemory (λ read. (read.0, read.1.now)) result (lead_at total page bytes.now) }
{
    match find_lead(page, bytes) {
        Some(read) => Ok(read),
        None => Err(DocFault::Short { at: total }),
    }
}

/// A number.
#[tactic(auto, unfolding(wap_base::specs::formats::ByteReading::number_at))]
pub(crate) fn read_number(total: usize, bytes: &[u8]) -> Result<(u32, &[u8]), DocFault>
    ensures { Meets NoMemory (λ read. (read.0, read.1.now)) result (number_at total bytes.now) }
{
    match read_mb(bytes, 0) {
        Ok((number, next)) => Ok((number, &bytes[next..])),
        Err(ReadFault::Short { .. }) => Err(DocFault::Short { at: total }),
        Err(ReadFault::TooLong { .. }) => Err(DocFault::Number {
            at: place(total, bytes),
        }),
    }
}

/// As many bytes as the number before them says.
#[tactic(auto, unfolding(crate::specs::reading::Fronts::opaque_at))]
pub(crate) fn read_opaque(total: usize, bytes: &[u8]) -> Result<(&[u8], &[u8]), DocFault>
    ensures { Meets NoMemory (λ read. (read.0.now, read.1.now)) result (opaque_at total bytes.now) }
{
    let (count, rest) = read_number(total, bytes)?;
    let count = count as usize;
    if rest.len() < count {
        return Err(DocFault::Short { at: total });
    }
    Ok(rest.split_at(count))
}

/// The number of a character.
#[tactic(auto, unfolding(crate::specs::reading::Fronts::character_at))]
pub(crate) fn read_character<'a>(
    input: &Input<'_>,
    bytes: &'a [u8],
) -> Result<(u32, &'a [u8]), DocFault>
    ensures { Meets NoMemory (λ read. (read.0, read.1.now)) result
        (character_at input.now.total bytes.now) }
{
    let (number, rest) = read_number(input.total(), bytes)?;
    if !is_character(number) {
        return Err(DocFault::Text {
            at: input.place_before(bytes),
        });
    }
    Ok((number, rest))
}

fn is_character(number: u32) -> bool
    ensures { result ≡ is_character number }
{
    number < 0xD800 || (number > 0xDFFF && number <= 0x10FFFF)
}

/// A string up to the 0 at its end.
#[tactic(auto, unfolding(crate::specs::reading::Fronts::inline_at))]
pub(crate) fn read_inline<'a>(
    alloc: Global,
    input: &Input<'_>,
    bytes: &'a [u8],
) -> Result<(Text, &'a [u8]), DocFault>
    ensures { Meets NoMemory (λ read. (read.0, read.1.now)) result
        (inline_at input.now.strings input.now.total bytes.now) }
{
    let (string, end) = bytes.split_at(zero_place(bytes));
    let Some((_, rest)) = end.split_first() else {
        return Err(DocFault::Short { at: input.total() });
    };
    match input.charset().text(alloc, string)? {
        Some(text) => Ok((text, rest)),
        None => Err(DocFault::Text {
            at: input.place_before(bytes),
        }),
    }
}

/// A string of the string table, by its index.
#[tactic(auto, unfolding(crate::specs::reading::Fronts::indexed_at))]
pub(crate) fn read_indexed<'a>(
    alloc: Global,
    input: &Input<'_>,
    bytes: &'a [u8],
) -> Result<(Text, &'a [u8]), DocFault>
    ensures { Meets NoMemory (λ read. (read.0, read.1.now)) result
        (indexed_at input.now.strings input.now.total bytes.now) }
{
    let (index, rest) = read_number(input.total(), bytes)?;
    let at = input.place_before(bytes);
    let index = index as usize;
    let table = input.table();
    if index >= table.len() {
        return Err(DocFault::Index { at });
    }
    match input.charset().text(alloc, string_from(table, index))? {
        Some(text) => Ok((text, rest)),
        None => Err(DocFault::Text { at }),
    }
}

/// A name of the string table, by its index, which counts.
#[tactic(auto, unfolding(crate::specs::reading::Fronts::name_at))]
pub(crate) fn read_name<'a>(
    alloc: Global,
    input: &Input<'_>,
    state: &mut State,
    bytes: &'a [u8],
) -> Result<(Text, &'a [u8]), DocFault>
    ensures { Meets NoMemory (λ read. ((read.0, state.new), read.1.now)) result
        (name_at input.now.strings state.old input.now.total bytes.now) }
{
    let (name, rest) = read_indexed(alloc, input, bytes)?;
    state.count(alloc, &name, input.place_before(bytes))?;
    Ok((name, rest))
}

/// The string of a table from an index on.
pub fn string_from(table: &[u8], index: usize) -> &[u8]
    ensures { result.now ≡ string_from table.now index }
{
    let Some(string) = table.get(index..) else {
        return &[];
    };
    &string[..zero_place(string)]
}

/// How many bytes stand before the first 0.
fn zero_place(bytes: &[u8]) -> usize
    ensures place { result ≡ zero_place bytes.now }
    ensures within { result ≤ length bytes.now }
{
    for (at, byte) in bytes.iter().enumerate() {
        if *byte == 0 {
            return at;
        }
    }
    bytes.len()
}
