//! The tables of codes, looked up.
ghost use Rattle.std.specs.Prelude.{◌≡◌, nat_eq, IfSome};
ghost use Rattle.std.specs.Map.{lookup};
ghost use Rattle.std.specs.Option.{option_map};
ghost use Rattle.std.specs.Str.{chars, bytes_eq};
ghost use Rattle.wap_push.specs.Tables.{tag_in, start_in, value_of, action_named};
ghost use Rattle.wap_push.specs.inside.Rows.{lent_start, starts_by_code, texts_by_code};
ghost use Rattle.wap_push.specs.inside.Rows.{actions_by_text};

use crate::indication::Action;
use crate::names::{PushField, PushTag};
use crate::tables::{PUSH_ACTIONS, PUSH_STARTS, PUSH_TAGS, PUSH_VALUES};
use wap_tokens::markup::Token;

/// The tag beside a code.
fn tag_beside(rows: &[(u8, PushTag)], code: u8) -> Option<PushTag>
    ensures { result ≡ lookup (nat_eq code) rows.now }
{
    for row in rows {
        if code == row.0 {
            return Some(row.1);
        }
    }
    None
}

/// The tag of a token on a page.
pub(crate) fn tag_in(page: u8, token: &Token) -> Option<PushTag>
    ensures { result ≡ tag_in page token.now }
{
    match token {
        Token::Code(code) if page == 0 => tag_beside(&PUSH_TAGS, *code),
        Token::Code(_) | Token::Literal(_) => None,
    }
}

/// The start beside a code.
fn start_beside(
    rows: &[(u8, PushField, &'static str)],
    code: u8,
) -> Option<(PushField, &'static str)>
    ensures { option_map lent_start result ≡ lookup (nat_eq code) (starts_by_code rows.now) }
{
    for row in rows {
        if code == row.0 {
            return Some((row.1, row.2));
        }
    }
    None
}

/// The attribute that a code on a page starts, and the text with which its value begins.
fn start_of(page: u8, code: u8) -> Option<(PushField, &'static str)>
    ensures start { option_map lent_start result ≡ start_in page (Token.Code code) }
    ensures characters { IfSome result (λ start. chars start.1.now ≡ start.1.now) }
{
    if page != 0 {
        return None;
    }
    start_beside(&PUSH_STARTS, code)
}

/// The attribute that a token on a page starts, and the text with which its value begins.
pub(crate) fn start_in(page: u8, token: &Token) -> Option<(PushField, &'static str)>
    ensures start { option_map lent_start result ≡ start_in page token.now }
    ensures characters { IfSome result (λ start. chars start.1.now ≡ start.1.now) }
{
    match token {
        Token::Code(code) => start_of(page, *code),
        Token::Literal(_) => None,
    }
}

/// The text beside a code.
fn text_beside(rows: &[(u8, &'static str)], code: u8) -> Option<&'static str>
    ensures { option_map (λ text. text.now) result
        ≡ lookup (nat_eq code) (texts_by_code rows.now) }
{
    for row in rows {
        if code == row.0 {
            return Some(row.1);
        }
    }
    None
}

/// The text of a part of a value, by its code on a page.
pub(crate) fn value_of(page: u8, code: u8) -> Option<&'static str>
    ensures value { option_map (λ text. text.now) result ≡ value_of page code }
    ensures characters { IfSome result (λ text. chars text.now ≡ text.now) }
{
    if page != 0 {
        return None;
    }
    text_beside(&PUSH_VALUES, code)
}

/// The action beside a text.
fn action_beside(rows: &[(&str, Action)], text: &str) -> Option<Action>
    ensures { result ≡ lookup (bytes_eq text.now) (actions_by_text rows.now) }
{
    for row in rows {
        if text == row.0 {
            return Some(row.1);
        }
    }
    None
}

/// What a value of `action` says.
pub(crate) fn action_named(text: &str) -> Option<Action>
    ensures { result ≡ action_named text.now }
{
    action_beside(&PUSH_ACTIONS, text)
}
