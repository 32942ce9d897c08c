//! Elements and their content.
ghost use Rattle.std.specs.Prelude.{◌≡◌, suc};
ghost use Rattle.wap_base.specs.Outcome.{Meets};
ghost use Rattle.wap_wbxml.specs.declared.fault.DocFault.TheVariants.{NoMemory};
ghost use Rattle.wap_tokens.specs.markup.Codes.{is_named};
ghost use Rattle.wap_wbxml.specs.reading.BodyReading.{tag_at, when, next_kid, kids_at};
ghost use Rattle.wap_wbxml.specs.reading.BodyReading.{element_by, element_at};
ghost use Rattle.wap_wbxml.specs.reading.Gathering.{read_as, with_next};
ghost use Rattle.wap_wbxml.specs.reading.Making.{element_added, kid_added, kids_added};
ghost use Rattle.wap_wbxml.specs.reading.Making.{node_at, content_at};

use crate::DocFault;
use crate::attributes::{read_attributes_when, read_instruction};
use crate::builder::Builder;
use crate::fronts::{read_lead, read_name};
use crate::input::Input;
use crate::leaves::read_leaf;
use crate::marks::{content_mark, has_attributes, has_content, is_named};
use crate::state::State;
use std::alloc::Global;
use wap_tokens::markup::{ContentMark, Lead, Token};

/// Adds an element of so many levels at most, after the byte of its tag.
#[cycle(content)]
#[tactic(auto, unfolding(crate::specs::reading::BodyReading::element_at))]
fn add_element<'a, B: Builder>(
    alloc: Global,
    input: &Input<'_>,
    state: &mut State,
    levels: u32,
    content: &mut B::Content,
    lead: Lead,
    bytes: &'a [u8],
) -> Result<&'a [u8], DocFault>
    ensures { Meets NoMemory (λ rest. ((content.new, state.new), rest.now)) result
        (read_as (element_added B.makes levels content.old)
        (element_at input.now levels state.old lead bytes.now)) }
{
    if levels == 0 {
        return Err(DocFault::Depth {
            at: input.place_before(bytes),
        });
    }
    add_parts::<B>(alloc, input, state, levels - 1, content, lead, bytes)
}

/// Adds an element in which elements of so many levels may stand, after the byte of its tag: what
/// is made of it, or its content where the tag isn't known.
#[cycle(content)]
#[tactic(auto, unfolding(crate::specs::reading::BodyReading::element_by))]
fn add_parts<'a, B: Builder>(
    alloc: Global,
    input: &Input<'_>,
    state: &mut State,
    levels: u32,
    content: &mut B::Content,
    lead: Lead,
    bytes: &'a [u8],
) -> Result<&'a [u8], DocFault>
    ensures { Meets NoMemory (λ rest. ((content.new, state.new), rest.now)) result
        (read_as (element_added B.makes (suc levels) content.old)
        (element_by input.now (element_at input.now levels) state.old lead bytes.now)) }
{
    state.go_to_tag_page(lead.page);
    let (token, rest) = read_tag(alloc, input, state, lead.byte, bytes)?;
    match B::tag(lead.page, token) {
        Some(tag) => add_node::<B>(alloc, input, state, levels, content, tag, lead, rest),
        None => add_content::<B>(alloc, input, state, levels, content, lead, rest),
    }
}

/// A tag after its byte.
#[tactic(auto, unfolding(crate::specs::reading::BodyReading::tag_at))]
pub(crate) fn read_tag<'a>(
    alloc: Global,
    input: &Input<'_>,
    state: &mut State,
    byte: u8,
    bytes: &'a [u8],
) -> Result<(Token, &'a [u8]), DocFault>
    ensures { Meets NoMemory (λ read. ((read.0, state.new), read.1.now)) result
        (tag_at input.now state.old byte (is_named byte) bytes.now) }
{
    if !is_named(byte) {
        return Ok((Token::Code(byte % 64), bytes));
    }
    let (name, rest) = read_name(alloc, input, state, bytes)?;
    Ok((Token::Literal(name), rest))
}

/// Adds a node of this tag, after the byte and the name of the tag.
#[cycle(content)]
fn add_node<'a, B: Builder>(
    alloc: Global,
    input: &Input<'_>,
    state: &mut State,
    levels: u32,
    content: &mut B::Content,
    tag: B::Tag,
    lead: Lead,
    bytes: &'a [u8],
) -> Result<&'a [u8], DocFault>
    ensures { Meets NoMemory (λ rest. ((content.new, state.new), rest.now)) result
        (read_as (B.makes.node_added content.old)
        (node_at B.makes input.now levels tag lead state.old bytes.now)) }
{
    let (node, rest) = read_node::<B>(alloc, input, state, levels, tag, lead, bytes)?;
    B::add_node(alloc, content, node)?;
    Ok(rest)
}

/// A node of this tag, after the byte and the name of the tag.
#[cycle(content)]
#[tactic(auto, unfolding(crate::specs::reading::Making::node_at))]
pub(crate) fn read_node<'a, B: Builder>(
    alloc: Global,
    input: &Input<'_>,
    state: &mut State,
    levels: u32,
    tag: B::Tag,
    lead: Lead,
    bytes: &'a [u8],
) -> Result<(B::Node, &'a [u8]), DocFault>
    ensures { Meets NoMemory (λ read. ((read.0, state.new), read.1.now)) result
        (node_at B.makes input.now levels tag lead state.old bytes.now) }
{
    let has = has_attributes(lead.byte);
    let (attributes, rest) = read_attributes_when::<B>(alloc, input, state, has, bytes)?;
    let has = has_content(lead.byte);
    let (content, rest) = read_content_when::<B>(alloc, input, state, levels, has, rest)?;
    Ok((B::node(tag, attributes, content), rest))
}

/// Adds the content of an element whose tag isn't known, after the byte and the name of the tag.
/// Its attributes are read and left out.
#[cycle(content)]
#[tactic(auto, unfolding(crate::specs::reading::Making::content_at))]
fn add_content<'a, B: Builder>(
    alloc: Global,
    input: &Input<'_>,
    state: &mut State,
    levels: u32,
    content: &mut B::Content,
    lead: Lead,
    bytes: &'a [u8],
) -> Result<&'a [u8], DocFault>
    ensures { Meets NoMemory (λ rest. ((content.new, state.new), rest.now)) result
        (content_at B.makes input.now levels content.old lead state.old bytes.now) }
{
    let has = has_attributes(lead.byte);
    let (_, rest) = read_attributes_when::<B>(alloc, input, state, has, bytes)?;
    if !has_content(lead.byte) {
        return Ok(rest);
    }
    add_kids::<B>(alloc, input, state, levels, content, rest)
}

/// Content up to its end, where there is any.
#[cycle(content)]
fn read_content_when<'a, B: Builder>(
    alloc: Global,
    input: &Input<'_>,
    state: &mut State,
    levels: u32,
    has: bool,
    bytes: &'a [u8],
) -> Result<(B::Content, &'a [u8]), DocFault>
    ensures { Meets NoMemory (λ read. ((read.0, state.new), read.1.now)) result
        (read_as (kids_added B.makes levels B.makes.no_content)
        (when has (kids_at input.now (element_at input.now levels)) state.old bytes.now)) }
{
    let mut content = B::content(alloc, has)?;
    if !has {
        return Ok((content, bytes));
    }
    let rest = add_kids::<B>(alloc, input, state, levels, &mut content, bytes)?;
    Ok((content, rest))
}

/// Adds content up to its end.
#[cycle(content)]
fn add_kids<'a, B: Builder>(
    alloc: Global,
    input: &Input<'_>,
    state: &mut State,
    levels: u32,
    content: &mut B::Content,
    bytes: &'a [u8],
) -> Result<&'a [u8], DocFault>
    ensures { Meets NoMemory (λ rest. ((content.new, state.new), rest.now)) result
        (read_as (kids_added B.makes levels content.old)
        (kids_at input.now (element_at input.now levels) state.old bytes.now)) }
{
    let mut rest = bytes;
    for _ in 0..bytes.len() {
        let (more, after) = add_next_kid::<B>(alloc, input, state, levels, content, rest)?;
        rest = after;
        if !more {
            return Ok(rest);
        }
    }
    Err(DocFault::Short { at: input.total() })
}

/// Adds the next part of some content, and says whether there was one before the end.
#[cycle(content)]
#[tactic(auto, unfolding(crate::specs::reading::BodyReading::next_kid))]
fn add_next_kid<'a, B: Builder>(
    alloc: Global,
    input: &Input<'_>,
    state: &mut State,
    levels: u32,
    content: &mut B::Content,
    bytes: &'a [u8],
) -> Result<(bool, &'a [u8]), DocFault>
    ensures { Meets NoMemory (λ read. (((read.0, content.new), state.new), read.1.now)) result
        (read_as (with_next (kid_added B.makes levels) content.old)
        (next_kid input.now (element_at input.now levels) state.old bytes.now)) }
{
    let (lead, rest) = read_lead(input.total(), state.tag_page(), bytes)?;
    match content_mark(lead) {
        ContentMark::End => Ok((false, rest)),
        ContentMark::Element => {
            let rest = add_element::<B>(alloc, input, state, levels, content, lead, rest)?;
            Ok((true, rest))
        }
        ContentMark::Pi => {
            let (instruction, rest) = read_instruction::<B>(alloc, input, state, rest)?;
            B::add_instruction(alloc, content, instruction)?;
            Ok((true, rest))
        }
        ContentMark::Leaf(mark) => {
            let (leaf, rest) = read_leaf(alloc, input, mark, rest)?;
            state.go_to_tag_page(lead.page);
            B::add_leaf(alloc, content, leaf)?;
            Ok((true, rest))
        }
        ContentMark::Nothing => Err(DocFault::Token {
            at: input.place_before(rest),
        }),
    }
}
