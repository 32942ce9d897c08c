//! What stands around the tokens of a fragment.
ghost use Rattle.std.specs.Prelude.{◌≡◌, ◌-◌, take, drop};
ghost use Rattle.wap_parse.specs.invocation.Calls.{are_blanks, is_spaced};

use wap_lex::Token;

/// Whether no byte is other than a blank.
fn are_blanks(bytes: &[u8]) -> bool
    ensures { result ≡ are_blanks bytes.now }
{
    bytes.iter().all(|byte| *byte == b' ')
}

/// The bytes from a place on.
fn onward(src: &[u8], at: u32) -> &[u8]
    ensures { result.now ≡ drop at src.now }
{
    let (_, rest) = src.split_at((at as usize).min(src.len()));
    rest
}

/// The bytes from one place up to another.
fn between(src: &[u8], at: u32, to: u32) -> &[u8]
    ensures { result.now ≡ take (to - at) (drop at src.now) }
{
    let rest = onward(src, at);
    let len = (to as usize).saturating_sub(at as usize);
    let (text, _) = rest.split_at(len.min(rest.len()));
    text
}

/// Whether blanks alone stand before, between and after tokens.
pub(crate) fn is_spaced(src: &[u8], tokens: &[Token]) -> bool
    ensures { result ≡ is_spaced src.now 0 tokens.now }
{
    let mut at = 0;
    for token in tokens {
        if !are_blanks(between(src, at, token.from)) {
            return false;
        }
        at = token.to;
    }
    are_blanks(onward(src, at))
}
