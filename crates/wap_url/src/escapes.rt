//! Escapes of a text's bytes.
ghost use Rattle.std.specs.Prelude.{◌≡◌, IfOk, encode_utf8_all};
ghost use Rattle.std.specs.List.{flat_map};
ghost use Rattle.wap_url.specs.Escapes.{escape_of, escaped, unescaped};

use percent_encoding::{AsciiSet, NON_ALPHANUMERIC, ascii_set, percent_decode_str, percent_encode};
use std::alloc::Global;
use wap_base::{Bytes, NoMemory, Text};

/// The ASCII bytes that are escaped: all but the unreserved ones.
const RESERVED: AsciiSet = ascii_set!(
    NON_ALPHANUMERIC
        .remove(b'-')
        .remove(b'_')
        .remove(b'.')
        .remove(b'!')
        .remove(b'~')
        .remove(b'*')
        .remove(b'\'')
        .remove(b'(')
        .remove(b')')
);

/// The text with each byte of its UTF-8 that isn't unreserved as `%` and two digits
/// (RFC 2396, sections 2.3 and 2.4).
pub fn escape(alloc: Global, text: &Text) -> Result<Text, NoMemory>
    ensures exact { IfOk result (λ escape. escape ≡ escaped text.now) }

    // Unescaping it gives the bytes back.
    ensures back { IfOk result (λ escape. unescaped escape ≡ encode_utf8_all text.now) }
{
    escape_bytes(alloc, text.as_str().as_bytes())
}

fn escape_bytes(alloc: Global, bytes: &[u8]) -> Result<Text, NoMemory>
    ensures exact { IfOk result (λ escape. escape ≡ flat_map escape_of bytes.now) }
    ensures back { IfOk result (λ escape. unescaped escape ≡ bytes.now) }
{
    let mut text = String::new(alloc);
    percent_encode(bytes, RESERVED).append_to(&mut text)?;
    Ok(Text::from_string(text))
}

/// The bytes of the text's UTF-8, with each `%` and two hexadecimal digits read as a byte. They
/// need not be UTF-8.
pub fn unescape(alloc: Global, text: &Text) -> Result<Bytes, NoMemory>
    ensures exact { IfOk result (λ bytes. bytes ≡ unescaped text.now) }
{
    let mut bytes = Vec::new(alloc);
    percent_decode_str(text.as_str()).append_to(&mut bytes)?;
    Ok(Bytes::from_vec(bytes))
}
