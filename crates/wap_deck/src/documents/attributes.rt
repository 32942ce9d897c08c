//! What attributes start with.
ghost use Rattle.std.specs.Prelude.{◌≡◌, IfSome};
ghost use Rattle.std.specs.Option.{option_map};
ghost use Rattle.std.specs.Str.{chars};
ghost use Rattle.wap_tokens.specs.markup.Decks.{start_of};
ghost use Rattle.wap_tokens.specs.Rows.{lent_start};

use wap_tokens::markup::{AttrName, Token};
use wap_tokens::{attr_named, attr_start};

/// The attribute that a token starts, and the text with which its value begins.
#[inline(always)]
pub fn start_of(page: u8, token: &Token) -> Option<(AttrName, &'static str)>
    ensures start { option_map lent_start result ≡ start_of page token.now }
    ensures characters { IfSome result (λ start. chars start.1.now ≡ start.1.now) }
{
    match token {
        Token::Code(code) => attr_start(page, *code),
        Token::Literal(name) => match attr_named(name) {
            Some(attr) => Some((attr, "")),
            None => None,
        },
    }
}
