//! What stands in content and in the value of an attribute alike.
ghost use Rattle.std.specs.Prelude.{◌≡◌};
ghost use Rattle.wap_base.specs.Outcome.{Meets};
ghost use Rattle.wap_tokens.specs.markup.Grammar.{leaf_of, piece_of, kid_of};
ghost use Rattle.wap_wbxml.specs.declared.fault.DocFault.TheVariants.{NoMemory};
ghost use Rattle.wap_wbxml.specs.reading.BodyReading.{leaf_at};

use crate::DocFault;
use crate::fronts::{read_character, read_indexed, read_inline, read_opaque};
use crate::input::Input;
use std::alloc::Global;
use wap_base::{Bytes, Text};
use wap_tokens::markup::{Kid, Leaf, LeafMark, Piece, Role};

/// A string, a character, a reference, an extension or opaque data, after the byte that says so.
#[tactic(auto, unfolding(crate::specs::reading::BodyReading::leaf_at))]
pub(crate) fn read_leaf<'a>(
    alloc: Global,
    input: &Input<'_>,
    mark: LeafMark,
    bytes: &'a [u8],
) -> Result<(Leaf, &'a [u8]), DocFault>
    ensures { Meets NoMemory (λ read. (read.0, read.1.now)) result
        (leaf_at input.now mark bytes.now) }
{
    match mark {
        LeafMark::Inline(role) => {
            let (text, rest) = read_inline(alloc, input, bytes)?;
            Ok((leaf(role, text), rest))
        }
        LeafMark::Indexed(role) => {
            let (text, rest) = read_indexed(alloc, input, bytes)?;
            Ok((leaf(role, text), rest))
        }
        LeafMark::Entity => {
            let (number, rest) = read_character(input, bytes)?;
            Ok((Leaf::Entity(number), rest))
        }
        LeafMark::Opaque => {
            let (opaque, rest) = read_opaque(input.total(), bytes)?;
            Ok((Leaf::Opaque(Bytes::of(alloc, opaque)?), rest))
        }
        LeafMark::Extension(number) => Ok((Leaf::Ext(number), bytes)),
    }
}

/// What a string stands for.
fn leaf(role: Role, text: Text) -> Leaf
    ensures { result ≡ leaf_of role text }
{
    match role {
        Role::Shown => Leaf::Str(text),
        Role::Variable(conv) => Leaf::Var(text, conv),
    }
}

/// A part of a value.
pub(crate) fn piece(leaf: Leaf) -> Piece
    ensures { result ≡ piece_of leaf }
{
    match leaf {
        Leaf::Str(text) => Piece::Str(text),
        Leaf::Entity(number) => Piece::Entity(number),
        Leaf::Var(name, conv) => Piece::Var(name, conv),
        Leaf::Ext(number) => Piece::Ext(number),
        Leaf::Opaque(bytes) => Piece::Opaque(bytes),
    }
}

/// A part of content.
pub(crate) fn kid(leaf: Leaf) -> Kid
    ensures { result ≡ kid_of leaf }
{
    match leaf {
        Leaf::Str(text) => Kid::Str(text),
        Leaf::Entity(number) => Kid::Entity(number),
        Leaf::Var(name, conv) => Kid::Var(name, conv),
        Leaf::Ext(number) => Kid::Ext(number),
        Leaf::Opaque(bytes) => Kid::Opaque(bytes),
    }
}
