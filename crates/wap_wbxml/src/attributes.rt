//! Attributes and processing instructions.
ghost use Rattle.std.specs.Prelude.{◌≡◌};
ghost use Rattle.wap_base.specs.Outcome.{Meets};
ghost use Rattle.wap_wbxml.specs.declared.fault.DocFault.TheVariants.{NoMemory};
ghost use Rattle.wap_tokens.specs.markup.Codes.{attribute_mark, is_end};
ghost use Rattle.wap_wbxml.specs.reading.BodyReading.{start_at, next_piece, pieces_at, when};
ghost use Rattle.wap_wbxml.specs.reading.BodyReading.{attribute_behind, next_attribute};
ghost use Rattle.wap_wbxml.specs.reading.BodyReading.{attributes_at, end_at, instruction_at};
ghost use Rattle.wap_wbxml.specs.reading.Gathering.{read_as, with_next};
ghost use Rattle.wap_wbxml.specs.reading.Making.{pieces_added, attribute_made, attribute_added};
ghost use Rattle.wap_wbxml.specs.reading.Making.{attributes_made};

use crate::DocFault;
use crate::builder::Builder;
use crate::fronts::{find_lead, read_lead, read_name};
use crate::input::Input;
use crate::leaves::read_leaf;
use crate::marks::attribute_mark;
use crate::state::State;
use std::alloc::Global;
use wap_tokens::markup::{AttributeMark, Lead, Token};

/// A processing instruction after its byte: one attribute and an end.
#[tactic(auto, unfolding(crate::specs::reading::BodyReading::instruction_at))]
pub(crate) fn read_instruction<'a, B: Builder>(
    alloc: Global,
    input: &Input<'_>,
    state: &mut State,
    bytes: &'a [u8],
) -> Result<(B::Attribute, &'a [u8]), DocFault>
    ensures { Meets NoMemory (λ read. ((read.0, state.new), read.1.now)) result
        (read_as (attribute_made B.makes) (instruction_at input.now state.old bytes.now)) }
{
    let (lead, rest) = read_lead(input.total(), state.attribute_page(), bytes)?;
    let (attribute, rest) = read_attribute::<B>(alloc, input, state, lead, rest)?;
    let rest = read_end(input, state, rest)?;
    Ok((attribute, rest))
}

/// What follows an end, which the bytes have to begin with.
#[tactic(auto, unfolding(crate::specs::reading::BodyReading::end_at))]
fn read_end<'a>(input: &Input<'_>, state: &State, bytes: &'a [u8]) -> Result<&'a [u8], DocFault>
    ensures { Meets NoMemory (λ rest. rest.now) result
        (end_at input.now.total state.now bytes.now) }
{
    let (lead, rest) = read_lead(input.total(), state.attribute_page(), bytes)?;
    if !is_end(attribute_mark(lead)) {
        return Err(DocFault::Token {
            at: input.place_before(rest),
        });
    }
    Ok(rest)
}

/// Attributes up to their end, where there are any.
#[inline(always)]
pub(crate) fn read_attributes_when<'a, B: Builder>(
    alloc: Global,
    input: &Input<'_>,
    state: &mut State,
    has: bool,
    bytes: &'a [u8],
) -> Result<(B::Attributes, &'a [u8]), DocFault>
    ensures { Meets NoMemory (λ read. ((read.0, state.new), read.1.now)) result
        (read_as (attributes_made B.makes)
        (when has (attributes_at input.now) state.old bytes.now)) }
{
    if !has {
        return Ok((B::attributes(alloc, false)?, bytes));
    }
    read_attributes::<B>(alloc, input, state, bytes)
}

/// Attributes up to their end.
#[inline(always)]
fn read_attributes<'a, B: Builder>(
    alloc: Global,
    input: &Input<'_>,
    state: &mut State,
    bytes: &'a [u8],
) -> Result<(B::Attributes, &'a [u8]), DocFault>
    ensures { Meets NoMemory (λ read. ((read.0, state.new), read.1.now)) result
        (read_as (attributes_made B.makes) (attributes_at input.now state.old bytes.now)) }
{
    let mut attributes = B::attributes(alloc, true)?;
    let mut rest = bytes;
    for _ in 0..bytes.len() {
        let (more, after) = add_next_attribute::<B>(alloc, input, state, &mut attributes, rest)?;
        rest = after;
        if !more {
            return Ok((attributes, rest));
        }
    }
    Err(DocFault::Short { at: input.total() })
}

/// Adds the next attribute, and says whether there was one before the end.
#[tactic(auto, unfolding(crate::specs::reading::BodyReading::next_attribute))]
#[inline(always)]
fn add_next_attribute<'a, B: Builder>(
    alloc: Global,
    input: &Input<'_>,
    state: &mut State,
    attributes: &mut B::Attributes,
    bytes: &'a [u8],
) -> Result<(bool, &'a [u8]), DocFault>
    ensures { Meets NoMemory (λ read. (((read.0, attributes.new), state.new), read.1.now)) result
        (read_as (with_next (attribute_added B.makes) attributes.old)
        (next_attribute input.now state.old bytes.now)) }
{
    let (lead, rest) = read_lead(input.total(), state.attribute_page(), bytes)?;
    if is_end(attribute_mark(lead)) {
        return Ok((false, rest));
    }
    let (attribute, rest) = read_attribute::<B>(alloc, input, state, lead, rest)?;
    B::add_attribute(alloc, attributes, attribute)?;
    Ok((true, rest))
}

/// Whether a byte ends attributes.
fn is_end(mark: AttributeMark) -> bool
    ensures { result ≡ is_end mark }
{
    matches!(mark, AttributeMark::End)
}

/// An attribute after the byte that it begins with: its start, and its value.
#[tactic(auto, unfolding(crate::specs::reading::BodyReading::attribute_behind))]
#[inline(always)]
fn read_attribute<'a, B: Builder>(
    alloc: Global,
    input: &Input<'_>,
    state: &mut State,
    lead: Lead,
    bytes: &'a [u8],
) -> Result<(B::Attribute, &'a [u8]), DocFault>
    ensures { Meets NoMemory (λ read. ((read.0, state.new), read.1.now)) result
        (read_as (attribute_made B.makes)
        (attribute_behind input.now state.old lead bytes.now)) }
{
    state.go_to_attribute_page(lead.page);
    let (start, rest) = read_start(alloc, input, state, lead, bytes)?;
    let mut attribute = B::attribute(alloc, lead.page, start)?;
    let rest = add_pieces::<B>(alloc, input, state, &mut attribute, rest)?;
    Ok((attribute, rest))
}

/// An attribute's start after the byte that it begins with.
#[tactic(auto, unfolding(crate::specs::reading::BodyReading::start_at))]
fn read_start<'a>(
    alloc: Global,
    input: &Input<'_>,
    state: &mut State,
    lead: Lead,
    bytes: &'a [u8],
) -> Result<(Token, &'a [u8]), DocFault>
    ensures { Meets NoMemory (λ read. ((read.0, state.new), read.1.now)) result
        (start_at input.now state.old lead (attribute_mark lead) bytes.now) }
{
    match attribute_mark(lead) {
        AttributeMark::Coded => Ok((Token::Code(lead.byte), bytes)),
        AttributeMark::Named => {
            let (name, rest) = read_name(alloc, input, state, bytes)?;
            Ok((Token::Literal(name), rest))
        }
        AttributeMark::End
        | AttributeMark::Value
        | AttributeMark::Leaf(_)
        | AttributeMark::Nothing => Err(DocFault::Token {
            at: input.place_before(bytes),
        }),
    }
}

/// Adds the parts of a value.
#[inline(always)]
fn add_pieces<'a, B: Builder>(
    alloc: Global,
    input: &Input<'_>,
    state: &mut State,
    attribute: &mut B::Attribute,
    bytes: &'a [u8],
) -> Result<&'a [u8], DocFault>
    ensures { Meets NoMemory (λ rest. ((attribute.new, state.new), rest.now)) result
        (read_as (pieces_added B.makes attribute.old)
        (pieces_at input.now state.old bytes.now)) }
{
    let mut rest = bytes;
    for _ in 0..bytes.len() {
        let (more, after) = add_next_piece::<B>(alloc, input, state, attribute, rest)?;
        rest = after;
        if !more {
            return Ok(rest);
        }
    }
    Ok(rest)
}

/// Adds the next part of a value, and says whether there was one before an end, an attribute or
/// what can't stand here.
#[tactic(auto, unfolding(crate::specs::reading::BodyReading::next_piece))]
#[inline(always)]
fn add_next_piece<'a, B: Builder>(
    alloc: Global,
    input: &Input<'_>,
    state: &mut State,
    attribute: &mut B::Attribute,
    bytes: &'a [u8],
) -> Result<(bool, &'a [u8]), DocFault>
    ensures { Meets NoMemory (λ read. (((read.0, attribute.new), state.new), read.1.now)) result
        (read_as (with_next B.makes.piece_added attribute.old)
        (next_piece input.now state.old bytes.now)) }
{
    let Some((lead, rest)) = find_lead(state.attribute_page(), bytes) else {
        return Ok((false, bytes));
    };
    match attribute_mark(lead) {
        AttributeMark::Value => {
            state.go_to_attribute_page(lead.page);
            B::add_code(alloc, attribute, lead.page, lead.byte)?;
            Ok((true, rest))
        }
        AttributeMark::Leaf(mark) => {
            let (leaf, rest) = read_leaf(alloc, input, mark, rest)?;
            state.go_to_attribute_page(lead.page);
            B::add_piece(alloc, attribute, leaf)?;
            Ok((true, rest))
        }
        AttributeMark::End | AttributeMark::Coded | AttributeMark::Named | AttributeMark::Nothing =>
            Ok((false, bytes)),
    }
}
