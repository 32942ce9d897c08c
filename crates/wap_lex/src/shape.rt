//! The shapes of what stands in a source, and the longest that begins at a place.
ghost use Rattle.std.specs.Prelude.{◌≡◌, ◌≤◌, length};
ghost use Rattle.wap_lex.specs.Calculation.{shape_len, longer, longest, longest_of};
ghost use Rattle.wap_lex.specs.ByFirst.{shapes_at};
ghost use Rattle.wap_lex.specs.declared.shape.Shape.TheVariants.{Blank};
ghost use Rattle.wap_lex.specs.Tokens.{kind_of};

use crate::class::{Class, run_len};
use crate::comments::comment_len;
use crate::first::{First, first_of};
use crate::marks::mark_len;
use crate::numbers::{float_len, integer_len};
use crate::strings::string_len;
use crate::token::Kind;
use crate::words::{is_reserved, word_len};

/// The shape of a token, or of what stands between tokens.
#[derive(Clone, Copy)]
pub enum Shape {
    Blank,
    Comment,
    Word,
    Integer,
    Float,
    Str,
    Mark,
}

/// What stands where no shape begins.
const NOTHING: (Shape, usize) = (Shape::Blank, 0);

/// How many bytes of a shape stand at the beginning, 0 where it doesn't begin.
#[inline(always)]
fn shape_len(shape: Shape, bytes: &[u8]) -> usize
    ensures shape { result ≡ shape_len shape bytes.now }
    ensures within { result ≤ length bytes.now }
{
    match shape {
        Shape::Blank => run_len(Class::White, bytes),
        Shape::Comment => comment_len(bytes),
        Shape::Word => word_len(bytes),
        Shape::Integer => integer_len(bytes),
        Shape::Float => float_len(bytes),
        Shape::Str => string_len(bytes),
        Shape::Mark => mark_len(bytes),
    }
}

/// The shape that reaches farthest, and how far; 0 where none begins.
pub(crate) fn longest(bytes: &[u8]) -> (Shape, usize)
    ensures longest { result ≡ longest bytes.now }
    ensures within { result.1 ≤ length bytes.now }
{
    match bytes {
        [] => NOTHING,
        [first, ..] => longest_at(first_of(*first), bytes),
    }
}

/// The same, of the shapes that may begin with such a first byte.
fn longest_at(first: First, bytes: &[u8]) -> (Shape, usize)
    ensures longest { result ≡ longest_of bytes.now (Blank, 0) (shapes_at first) }
    ensures within { result.1 ≤ length bytes.now }
{
    match first {
        First::White => longer(bytes, NOTHING, Shape::Blank),
        First::Letter => longer(bytes, longer(bytes, NOTHING, Shape::Word), Shape::Mark),
        First::Digit => longer(bytes, longer(bytes, NOTHING, Shape::Integer), Shape::Float),
        First::Point => longer(bytes, longer(bytes, NOTHING, Shape::Float), Shape::Mark),
        First::Quote => longer(bytes, NOTHING, Shape::Str),
        First::Slash => longer(bytes, longer(bytes, NOTHING, Shape::Comment), Shape::Mark),
        First::Other => longer(bytes, NOTHING, Shape::Mark),
    }
}

/// The better of the best so far and one more.
#[inline(always)]
fn longer(bytes: &[u8], best: (Shape, usize), shape: Shape) -> (Shape, usize)
    requires { best.1 ≤ length bytes.now }
    ensures longer { result ≡ longer bytes.now best shape }
    ensures within { result.1 ≤ length bytes.now }
{
    let len = shape_len(shape, bytes);
    if len > best.1 { (shape, len) } else { best }
}

/// The kind of a token of a shape, none where the shape is of no token.
pub(crate) fn kind_of(shape: Shape, text: &[u8]) -> Option<Kind>
    ensures { result ≡ kind_of shape text.now }
{
    match shape {
        Shape::Blank | Shape::Comment => None,
        Shape::Word => Some(if is_reserved(text) {
            Kind::Reserved
        } else {
            Kind::Name
        }),
        Shape::Integer => Some(Kind::Int),
        Shape::Float => Some(Kind::Float),
        Shape::Str => Some(Kind::Str),
        Shape::Mark => Some(Kind::Mark),
    }
}
