//! Literals (WAP-193, section 6.1.5).
ghost use Rattle.std.specs.Prelude.{◌≡◌, Ok};
ghost use Rattle.wap_base.specs.Outcome.{Meets};
ghost use Rattle.wap_grammar.specs.declared.fault.ParseFault.TheVariants as faults;
ghost use Rattle.wap_grammar.specs.Values.{literal_of, integer_of};

use crate::expressions::lexemes::text_in;
use crate::expressions::strings::string_of;
use std::alloc::Global;
use wap_grammar::program::{Literal, Span};
use wap_grammar::{ParseFault, Word};

/// The literal that a word is, if it is one.
#[inline(always)]
#[tactic(auto, unfolding(wap_grammar::specs::Values::literal_of))]
pub(crate) fn literal_of(
    alloc: Global,
    src: &[u8],
    span: Span,
    word: Word,
) -> Result<Option<Literal>, ParseFault>
    ensures { Meets faults.NoMemory (λ literal. literal) result
        (Ok (literal_of src.now span word)) }
{
    match word {
        Word::Int => Ok(integer_of(text_in(src, span))),
        Word::Float => Ok(Some(Literal::Float)),
        Word::Str => {
            let text = string_of(alloc, text_in(src, span))?;
            Ok(Some(Literal::Str(text)))
        }
        Word::True => Ok(Some(Literal::Bool(true))),
        Word::False => Ok(Some(Literal::Bool(false))),
        Word::Invalid => Ok(Some(Literal::Invalid)),
        _ => Ok(None),
    }
}

/// The literal that an integer is, if it is in range.
fn integer_of(text: &[u8]) -> Option<Literal>
    ensures { result ≡ integer_of text.now }
{
    match wap_lex::integer_of(text) {
        Some(value) => Some(Literal::Int(value as i32)),
        None => None,
    }
}
