//! The words of a line.
ghost use Rattle.std.specs.Prelude.{◌≡◌, ◌<◌, map};
ghost use Rattle.std.specs.List.{flat_map};
ghost use Rattle.std.specs.Str.{chars};
ghost use Rattle.wap_dis.specs.Listing.{hex_digit, hex, shown, spaced, line};
ghost use Rattle.wap_dis.specs.inside.Gathering.{Gathers};
ghost use Rattle.wap_dis.specs.inside.Gathered.{state};
ghost use Rattle.wap_dis.specs.inside.LineWords.{word_bytes};

use crate::held::{Held, put};
use itoa::Buffer;
use wap_base::shown_character;
use wap_devices::Sink;

/// A word of a line.
#[derive(Clone, Copy)]
pub enum Word<'a> {
    /// As it stands.
    Name(&'a str),
    Number(u64),
    Signed(i32),
    /// Bytes as pairs of digits of base 16.
    Hex(&'a [u8]),
    /// A text, its control characters as dots.
    Shown(&'a str),
}

/// Puts a line: a word, more words with a space before each, and its end.
pub(crate) fn put_line<O: Sink>(out: &mut O, held: &mut Held, first: Word<'_>, words: &[Word<'_>])
    ensures { Gathers (O.seen out.old) (O.seen out.new)
        (state held.old) (state held.new)
        (line (word_bytes first.entry) (map word_bytes words.now)) }
{
    put_word(out, held, first);
    put_words(out, held, words);
    put(out, held, b"\n");
}

/// Puts words, with a space before each.
fn put_words<O: Sink>(out: &mut O, held: &mut Held, words: &[Word<'_>])
    ensures { Gathers (O.seen out.old) (O.seen out.new)
        (state held.old) (state held.new) (flat_map spaced (map word_bytes words.now)) }
{
    for word in words {
        put(out, held, b" ");
        put_word(out, held, *word);
    }
}

fn put_word<O: Sink>(out: &mut O, held: &mut Held, word: Word<'_>)
    ensures { Gathers (O.seen out.old) (O.seen out.new)
        (state held.old) (state held.new) (word_bytes word.entry) }
{
    match word {
        Word::Name(text) => put(out, held, text.as_bytes()),
        Word::Number(value) => {
            let mut buffer = Buffer::new();
            put(out, held, buffer.format(value).as_bytes());
        }
        Word::Signed(value) => {
            let mut buffer = Buffer::new();
            put(out, held, buffer.format(value).as_bytes());
        }
        Word::Hex(bytes) => put_hex(out, held, bytes),
        Word::Shown(text) => put_shown(out, held, text),
    }
}

fn hex_digit(value: u8) -> u8
    requires { value < 16 }
    ensures { result ≡ hex_digit value }
{
    if value < 10 { 48 + value } else { 87 + value }
}

fn put_hex<O: Sink>(out: &mut O, held: &mut Held, bytes: &[u8])
    ensures { Gathers (O.seen out.old) (O.seen out.new)
        (state held.old) (state held.new) (hex bytes.now) }
{
    for byte in bytes {
        put(out, held, &[hex_digit(*byte / 16), hex_digit(*byte % 16)]);
    }
}

/// Puts a text, its control characters as dots.
fn put_shown<O: Sink>(out: &mut O, held: &mut Held, text: &str)
    ensures { Gathers (O.seen out.old) (O.seen out.new)
        (state held.old) (state held.new) (shown (chars text.now)) }
{
    for character in text.chars() {
        let mut bytes = [0; 4];
        let shown = shown_character(character).encode_utf8(&mut bytes);
        put(out, held, shown.as_bytes());
    }
}
