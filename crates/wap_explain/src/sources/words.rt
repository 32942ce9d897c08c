//! The tokens of a source, with their texts.
ghost use Rattle.std.specs.Prelude.{◌<◌, ◌^◌, length};

use std::alloc::Global;
use std::str;
use wap_base::{NoMemory, Rows};
use wap_lex::{Kind, LexFault, lex};

/// A token.
#[derive(Clone, Copy)]
pub(crate) struct Word<'a> {
    pub(crate) text: &'a str,
    pub(crate) kind: Kind,
    /// The place of its first byte.
    pub(crate) from: usize,
    /// The place after its last byte.
    pub(crate) to: usize,
}

/// A source that has a fault, and its tokens, none where it has a fault of its tokens.
#[derive(Clone, Copy)]
pub(crate) struct Source<'a> {
    pub(crate) bytes: &'a [u8],
    pub(crate) words: &'a [Word<'a>],
    /// The tokens before the place of the fault.
    pub(crate) before: &'a [Word<'a>],
    /// The tokens from that place on.
    pub(crate) rest: &'a [Word<'a>],
}

/// The text of bytes from one place to another, where they are one.
pub(crate) fn text_between(source: &[u8], from: usize, to: usize) -> &str {
    let bytes = source.get(from..to).unwrap_or(&[]);
    str::from_utf8(bytes).unwrap_or("")
}

/// The tokens of a source, none where it has a fault of its tokens.
pub(crate) fn words_of(alloc: Global, source: &[u8]) -> Result<Rows<Word<'_>>, NoMemory>
    requires { length source.now < 2 ^ 31 }
{
    let mut words = Rows::new(alloc);
    let tokens = match lex(alloc, source) {
        Ok(tokens) => tokens,
        Err(LexFault::NoMemory) => return Err(NoMemory),
        Err(_) => return Ok(words),
    };
    for token in &tokens {
        let (kind, from, to) = (token.kind, token.from as usize, token.to as usize);
        words.add(Word {
            text: text_between(source, from, to),
            kind,
            from,
            to,
        })?;
    }
    Ok(words)
}
