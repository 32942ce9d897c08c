//! Reading a source's tokens.
ghost use Rattle.std.specs.Prelude.{◌≡◌, ℕ, ◌^◌, ◌<◌, ◌≤◌, ◌+◌, List, length, Ok};
ghost use Rattle.std.specs.Prelude.{Err, IfOk, IfErr, ◌≢◌, ◌++◌, [], OnOk};
ghost use Rattle.wap_base.specs.Outcome.{Meets};
ghost use Rattle.wap_lex.specs.declared.token.Token.{Token};
ghost use Rattle.wap_lex.specs.declared.fault.LexFault.{LexFault};
ghost use Rattle.wap_lex.specs.declared.fault.LexFault.TheVariants.{NoMemory};
ghost use Rattle.wap_lex.specs.Tokens.{AreTokens, IsRefused, token_before};
ghost use Rattle.wap_lex.specs.Calculation.{bad_front, piece_at, pieces_at};

use crate::comments::is_open_comment;
use crate::numbers::integer_of;
use crate::shape::{Shape, kind_of, longest};
use crate::strings::items_len;
use crate::{Kind, LexFault, Token};
use std::alloc::Global;
use wap_base::Rows;

/// The tokens of a source.
pub fn lex(alloc: Global, src: &[u8]) -> Result<Vec<Token>, LexFault>
    requires { length src.now < 2 ^ 31 }
    // What is answered is the tokens, and no other tokens are.
    ensures found { IfOk result (λ tokens. AreTokens src.now tokens.items) }
    ensures only { (tokens : List Token) → AreTokens src.now tokens
        → Meets NoMemory (λ found. found.items) result (Ok tokens) }
    // Without tokens there is one fault, the first.
    ensures refused { IfErr result (λ fault. fault ≢ NoMemory → IsRefused src.now fault) }
    ensures first { (fault : LexFault) → IsRefused src.now fault
        → Meets NoMemory (λ found. found.items) result (Err fault) }
{
    if str::from_utf8(src).is_err() {
        return Err(LexFault::NotText);
    }
    pieces(alloc, src)
}

/// The tokens of a text, piece by piece.
fn pieces(alloc: Global, src: &[u8]) -> Result<Vec<Token>, LexFault>
    requires { length src.now < 2 ^ 31 }
    ensures { Meets NoMemory (λ found. found.items) result (pieces_at (length src.now) 0 src.now) }
{
    let mut tokens = Rows::new(alloc);
    let mut rest = src;
    for _ in 0..src.len() {
        if rest.is_empty() {
            return Ok(tokens.into_vec());
        }
        let at = src.len() - rest.len();
        let (shape, len) = piece(at, rest)?;
        let (text, behind) = rest.split_at(len);
        add_token(&mut tokens, kind_of(shape, text), at, at + len)?;
        rest = behind;
    }
    Ok(tokens.into_vec())
}

/// Adds a token, if there is one.
fn add_token(
    tokens: &mut Rows<Token>,
    kind: Option<Kind>,
    from: usize,
    to: usize,
) -> Result<(), LexFault>
    requires from { from < 2 ^ 31 }
    requires to { to < 2 ^ 31 }
    ensures ok { OnOk result (tokens.new ≡ tokens.old ++ token_before kind from to []) }
    ensures err { IfErr result (λ fault. fault ≡ NoMemory) }
{
    match kind {
        None => Ok(()),
        Some(kind) => {
            let (from, to) = (from as u32, to as u32);
            tokens.add(Token { kind, from, to })?;
            Ok(())
        }
    }
}

/// What bytes at a place begin with, and how many bytes that has.
#[tactic(auto, unfolding(crate::specs::Calculation::piece_at))]
fn piece(at: usize, bytes: &[u8]) -> Result<(Shape, usize), LexFault>
    requires { at + length bytes.now < 2 ^ 31 }
    ensures piece { Meets NoMemory (λ found. found) result (piece_at at bytes.now) }
    ensures within { IfOk result (λ found. found.1 ≤ length bytes.now) }
    ensures some { IfOk result (λ found. 0 < found.1) }
{
    if is_open_comment(bytes) {
        return Err(LexFault::OpenComment { at });
    }
    let (shape, len) = longest(bytes);
    if len == 0 {
        return Err(bad_front(at, bytes));
    }
    match shape {
        Shape::Integer if integer_of(&bytes[..len]).is_none() => Err(LexFault::IntRange { at }),
        _ => Ok((shape, len)),
    }
}

/// Why no piece stands at the beginning.
fn bad_front(at: usize, bytes: &[u8]) -> LexFault
    requires { at + length bytes.now < 2 ^ 31 }
    ensures { result ≡ bad_front at bytes.now }
{
    match bytes {
        [quote @ (b'\'' | b'"'), inside @ ..] => {
            let items = items_len(*quote, inside);
            match &inside[items..] {
                [b'\\', ..] => LexFault::BadEscape { at: at + 1 + items },
                _ => LexFault::OpenString { at },
            }
        }
        _ => LexFault::BadChar { at },
    }
}
