//! Reading a document from the left.
ghost use Rattle.std.specs.Prelude.{◌≡◌, ◌≢◌, ◌↔◌, ℕ, List, length, IfOk, IfErr, Ok, Err};
ghost use Rattle.wap_base.specs.Outcome.{Meets};
ghost use Rattle.wap_tokens.specs.declared.markup.document.Document.{Document};
ghost use Rattle.wap_tokens.specs.declared.markup.mark.DocumentType.{DocumentType};
ghost use Rattle.wap_tokens.specs.declared.markup.mark.DocumentType.TheVariants.{Other};
ghost use Rattle.wap_tokens.specs.markup.Documents.{IsDocument, IsDocumentOf};
ghost use Rattle.wap_wbxml.specs.declared.fault.DocFault.{DocFault};
ghost use Rattle.wap_wbxml.specs.declared.fault.DocFault.TheVariants.{NoMemory};
ghost use Rattle.wap_wbxml.specs.Refusal.{IsRefused, IsRefusedAs};
ghost use Rattle.wap_wbxml.specs.reading.BodyReading.{element_at};
ghost use Rattle.wap_wbxml.specs.reading.ByteReading.{told};
ghost use Rattle.wap_wbxml.specs.reading.Gathering.{read_as, with_next};
ghost use Rattle.wap_wbxml.specs.reading.Making.{unit, passed, outers_passed, root_made};
ghost use Rattle.wap_wbxml.specs.reading.Making.{body_made_at, whole_made, alone_in, all_made};
ghost use Rattle.wap_wbxml.specs.reading.Whole.{next_outer, root_at, whole_at, typed_at};
ghost use Rattle.wap_wbxml.specs.reading.Whole.{document_at};

use crate::DocFault;
use crate::attributes::read_instruction;
use crate::builder::Builder;
use crate::elements::{read_node, read_tag};
use crate::fronts::{read_lead, read_opaque};
use crate::header::{find_public, read_charset, read_identifier, read_version};
use crate::input::Input;
use crate::kept::Documents;
use crate::marks::content_mark;
use crate::state::State;
use std::alloc::Global;
use wap_tokens::markup::{ContentMark, Document, DocumentType, LEVEL_LIMIT, Lead, PI};

/// The document that the bytes spell, or the first thing in them, from the left, that can't stand
/// where it does. Processing instructions outside the root are read and left out.
pub fn decode(alloc: Global, bytes: &[u8]) -> Result<Document, DocFault>
    // What is read is spelled so, and what is spelled so is read, unless memory runs out.
    ensures found { IfOk result (λ document. IsDocument bytes.now document) }
    ensures only { (d : Document) → IsDocument bytes.now d → Meets NoMemory (λ d. d) result (Ok d) }

    // Each fault but out of memory says what is refused, and what is refused is that fault.
    ensures refused { IfErr result (λ fault. fault ≢ NoMemory → IsRefused bytes.now fault) }
    ensures first { (f : DocFault) → IsRefused bytes.now f
        → Meets NoMemory (λ d. d) result (Err f) }

    ensures exact { Meets NoMemory (λ d. d) result (document_at bytes.now) }
{
    read::<Documents>(alloc, DocumentType::Wml, bytes)
}

/// The same of a document of another type, whose public identifier has this number. A document that
/// has its identifier by name is refused.
pub fn decode_with(alloc: Global, bytes: &[u8], public: u32) -> Result<Document, DocFault>
    ensures found { IfOk result (λ document. IsDocumentOf (Other public) bytes.now document) }
    ensures only { (d : Document) → IsDocumentOf (Other public) bytes.now d
        → Meets NoMemory (λ d. d) result (Ok d) }

    ensures refused { IfErr result (λ fault. fault ≢ NoMemory
        → IsRefusedAs (Other public) bytes.now fault) }
    ensures first { (f : DocFault) → IsRefusedAs (Other public) bytes.now f
        → Meets NoMemory (λ d. d) result (Err f) }

    ensures exact { Meets NoMemory (λ d. d) result (typed_at (Other public) bytes.now) }
{
    read::<Documents>(alloc, DocumentType::Other(public), bytes)
}

/// No bytes have two documents of one type, or a document and a fault, or two faults; and reading
/// from the left finds the document or the fault that they have.
pub fn no_two_documents()
    ensures one { (kind : DocumentType) (b : List ℕ) (d e : Document) → IsDocumentOf kind b d
        → IsDocumentOf kind b e → d ≡ e }
    ensures found { (kind : DocumentType) (b : List ℕ) (d : Document)
        → (typed_at kind b ≡ Ok d) ↔ IsDocumentOf kind b d }
    ensures refused { (kind : DocumentType) (b : List ℕ) (f : DocFault)
        → (typed_at kind b ≡ Err f) ↔ IsRefusedAs kind b f }
{}

/// What a builder makes of the document of a type that the bytes spell, or the first thing in them,
/// from the left, that can't stand where it does.
pub fn read<B: Builder>(
    alloc: Global,
    kind: DocumentType,
    bytes: &[u8],
) -> Result<B::Whole, DocFault>
    ensures { Meets NoMemory (λ whole. whole) result
        (all_made B.makes (typed_at kind bytes.now)) }
{
    read_alone::<B>(alloc, kind, bytes)
}

/// The document that is all of the bytes.
fn read_alone<B: Builder>(
    alloc: Global,
    kind: DocumentType,
    bytes: &[u8],
) -> Result<B::Whole, DocFault>
    ensures { Meets NoMemory (λ whole. whole) result
        (alone_in (length bytes.now)
        (told (whole_made B.makes) (whole_at kind (length bytes.now) bytes.now))) }
{
    let (whole, rest) = read_whole::<B>(alloc, kind, bytes.len(), bytes)?;
    if !rest.is_empty() {
        return Err(DocFault::Rest {
            at: bytes.len().saturating_sub(rest.len()),
        });
    }
    Ok(whole)
}

/// A document, and what follows it.
#[tactic(auto, unfolding(crate::specs::reading::Whole::whole_at))]
fn read_whole<'a, B: Builder>(
    alloc: Global,
    kind: DocumentType,
    total: usize,
    bytes: &'a [u8],
) -> Result<(B::Whole, &'a [u8]), DocFault>
    ensures { Meets NoMemory (λ read. (read.0, read.1.now)) result
        (told (whole_made B.makes) (whole_at kind total bytes.now)) }
{
    let (version, rest) = read_version(total, bytes)?;
    let (identifier, rest) = read_identifier(kind, total, rest)?;
    let (charset, rest) = read_charset(total, rest)?;
    let (table, rest) = read_opaque(total, rest)?;
    let public = find_public(table, identifier)?;
    let input = Input::new(total, charset.1, table);
    let (root, rest) = read_body::<B>(alloc, &input, rest)?;
    Ok((B::whole(version, public, charset.0, root), rest))
}

/// The root, with processing instructions before and after it, which are dropped.
#[tactic(auto, unfolding(crate::specs::reading::Making::body_made_at))]
fn read_body<'a, B: Builder>(
    alloc: Global,
    input: &Input<'_>,
    bytes: &'a [u8],
) -> Result<(B::Node, &'a [u8]), DocFault>
    ensures { Meets NoMemory (λ read. (read.0, read.1.now)) result
        (body_made_at B.makes input.now bytes.now) }
{
    let mut state = State::new(alloc);
    let rest = pass_outers::<B>(alloc, input, &mut state, bytes)?;
    state.enter_root();
    let (root, rest) = read_root::<B>(alloc, input, &mut state, rest)?;
    state.leave_root();
    let rest = pass_outers::<B>(alloc, input, &mut state, rest)?;
    Ok((root, rest))
}

/// The root.
#[tactic(auto, unfolding(crate::specs::reading::Whole::root_at))]
fn read_root<'a, B: Builder>(
    alloc: Global,
    input: &Input<'_>,
    state: &mut State,
    bytes: &'a [u8],
) -> Result<(B::Node, &'a [u8]), DocFault>
    ensures { Meets NoMemory (λ read. ((read.0, state.new), read.1.now)) result
        (read_as (root_made B.makes) (root_at input.now state.old bytes.now)) }
{
    let (lead, rest) = read_lead(input.total(), state.tag_page(), bytes)?;
    match content_mark(lead) {
        ContentMark::Element => read_root_parts::<B>(alloc, input, state, lead, rest),
        ContentMark::End | ContentMark::Pi | ContentMark::Leaf(_) | ContentMark::Nothing => Err(
            DocFault::Token {
                at: input.place_before(rest),
            },
        ),
    }
}

/// The root, after the byte of its tag.
fn read_root_parts<'a, B: Builder>(
    alloc: Global,
    input: &Input<'_>,
    state: &mut State,
    lead: Lead,
    bytes: &'a [u8],
) -> Result<(B::Node, &'a [u8]), DocFault>
    ensures { Meets NoMemory (λ read. ((read.0, state.new), read.1.now)) result
        (read_as (root_made B.makes)
        (element_at input.now LEVEL_LIMIT state.old lead bytes.now)) }
{
    state.go_to_tag_page(lead.page);
    let (token, rest) = read_tag(alloc, input, state, lead.byte, bytes)?;
    let tag = B::root_tag(lead.page, token);
    read_node::<B>(alloc, input, state, LEVEL_LIMIT - 1, tag, lead, rest)
}

/// What follows the processing instructions outside the root, which are read and left out.
fn pass_outers<'a, B: Builder>(
    alloc: Global,
    input: &Input<'_>,
    state: &mut State,
    bytes: &'a [u8],
) -> Result<&'a [u8], DocFault>
    ensures { Meets NoMemory (λ rest. ((unit, state.new), rest.now)) result
        (outers_passed input.now state.old bytes.now) }
{
    let mut rest = bytes;
    for _ in 0..bytes.len() {
        let (more, after) = pass_outer::<B>(alloc, input, state, rest)?;
        rest = after;
        if !more {
            return Ok(rest);
        }
    }
    Ok(rest)
}

/// What follows the next processing instruction outside the root, and whether there is one.
#[tactic(auto, unfolding(crate::specs::reading::Whole::next_outer))]
fn pass_outer<'a, B: Builder>(
    alloc: Global,
    input: &Input<'_>,
    state: &mut State,
    bytes: &'a [u8],
) -> Result<(bool, &'a [u8]), DocFault>
    ensures { Meets NoMemory (λ read. (((read.0, unit), state.new), read.1.now)) result
        (read_as (with_next passed unit) (next_outer input.now state.old bytes.now)) }
{
    match bytes.split_first() {
        Some((byte, rest)) if *byte == PI => {
            let (_, rest) = read_instruction::<B>(alloc, input, state, rest)?;
            Ok((true, rest))
        }
        _ => Ok((false, bytes)),
    }
}
