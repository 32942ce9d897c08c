//! Constants as units spell them.
ghost use Rattle.std.specs.Prelude.{◌≡◌, IfOk, map};
ghost use Rattle.wap_grammar.specs.declared.program.expression.Literal.TheVariants as literal;
ghost use Rattle.wap_meaning.specs.coding.Constants.{integer_constant, constant_for};
ghost use Rattle.wap_codegen.specs.pool.inside.Contents.{literal_of};

use crate::pool::content::Content;
use std::alloc::Global;
use wap_base::{NoMemory, Rows, Text};
use wap_unit::Constant;

/// An integer, in the smallest kind that has room for it.
fn integer_constant(integer: i32) -> Constant
    ensures { result ≡ integer_constant integer }
{
    if let Ok(small) = i8::try_from(integer) {
        return Constant::Int8(small);
    }
    match i16::try_from(integer) {
        Ok(middle) => Constant::Int16(middle),
        Err(_) => Constant::Int32(integer),
    }
}

/// A text. The empty one has a kind of its own.
fn text_constant(alloc: Global, text: &Text) -> Result<Constant, NoMemory>
    ensures { IfOk result (λ constant. constant ≡ constant_for (literal.Str text.now)) }
{
    if text.is_empty() {
        return Ok(Constant::Empty);
    }
    Ok(Constant::Utf8(text.copy(alloc)?))
}

/// A constant as a unit has it.
fn constant_of(alloc: Global, content: &Content) -> Result<Constant, NoMemory>
    ensures { IfOk result (λ constant. constant ≡ constant_for (literal_of content.now)) }
{
    match content {
        Content::Integer(integer) => Ok(integer_constant(*integer)),
        Content::Text(text) => text_constant(alloc, text),
    }
}

/// Constants as a unit has them.
pub(crate) fn constants_of(alloc: Global, contents: &[Content]) -> Result<Rows<Constant>, NoMemory>
    ensures { IfOk result (λ constants.
        constants ≡ map (λ content. constant_for (literal_of content)) contents.now) }
{
    let mut constants = Rows::new(alloc);
    for content in contents {
        constants.add(constant_of(alloc, content)?)?;
    }
    Ok(constants)
}
