//! Words: names, and those that are reserved (WAP-193, sections 6.1.6 and 6.1.7).
ghost use Rattle.std.specs.Prelude.{◌≡◌, ◌<◌, ◌≤◌, length, map, get_or, []};
ghost use Rattle.std.specs.List.{list_any};
ghost use Rattle.wap_base.specs.Texts.{is_same_text};
ghost use Rattle.wap_lex.specs.ReservedWords.{is_reserved};
ghost use Rattle.wap_lex.specs.Calculation.{word_len};
ghost use Rattle.wap_lex.specs.ByFirst.{lent};

use crate::class::{Class, run_len};

/// How many bytes the word at the beginning has, 0 where none begins.
pub(crate) fn word_len(bytes: &[u8]) -> usize
    ensures word { result ≡ word_len bytes.now }
    ensures within { result ≤ length bytes.now }
{
    match bytes {
        [b'A'..=b'Z' | b'a'..=b'z' | b'_', rest @ ..] => 1 + run_len(Class::InWord, rest),
        _ => 0,
    }
}

/// The reserved words in rows, by their first letters from `a` on.
static RESERVED: [&[&[u8]]; 26] = [
    &[b"access", b"agent"],
    &[b"break"],
    &[b"case", b"catch", b"class", b"const", b"continue"],
    &[b"debugger", b"default", b"delete", b"div", b"do", b"domain"],
    &[b"else", b"enum", b"equiv", b"export", b"extends", b"extern"],
    &[b"false", b"finally", b"for", b"function"],
    &[],
    &[b"header", b"http"],
    &[b"if", b"import", b"in", b"invalid", b"isvalid"],
    &[],
    &[],
    &[b"lib"],
    &[b"meta"],
    &[b"name", b"new", b"null"],
    &[],
    &[b"path", b"private", b"public"],
    &[],
    &[b"return"],
    &[b"sizeof", b"struct", b"super", b"switch"],
    &[b"this", b"throw", b"true", b"try", b"typeof"],
    &[b"url", b"use", b"user"],
    &[b"var", b"void"],
    &[b"while", b"with"],
    &[],
    &[],
    &[],
];

/// Whether a word is reserved. Only the row of its first letter is tried.
pub(crate) fn is_reserved(word: &[u8]) -> bool
    ensures { result ≡ is_reserved word.now }
{
    if word.len() < 2 {
        return false;
    }
    let first = word[0];
    if !first.is_ascii_lowercase() {
        return false;
    }
    is_among_row(word, &RESERVED, usize::from(first - b'a'))
}

/// Whether a word is in the row of this number.
fn is_among_row(word: &[u8], rows: &[&[&[u8]]], at: usize) -> bool
    requires { at < length rows.now }
    ensures { result ≡ list_any (is_same_text word.now) (get_or (map lent rows.now) at []) }
{
    is_among(word, rows[at])
}

/// Whether a word is one of some.
fn is_among(word: &[u8], words: &[&[u8]]) -> bool
    ensures { result ≡ list_any (is_same_text word.now) (map (λ other. other.now) words.now) }
{
    for other in words {
        if word == *other {
            return true;
        }
    }
    false
}
