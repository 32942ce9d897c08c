//! The version and the character set of a document that is refused for them, in words.
use crate::pieces::Added;
use std::fmt::Write;
use wap_base::read_mb;

/// The number at the beginning, and what follows it.
pub(crate) fn take_number(bytes: &[u8]) -> Option<(u32, &[u8])> {
    let (number, next) = read_mb(bytes, 0).ok()?;
    Some((number, bytes.get(next..)?))
}

/// Adds what pages are that are no WBXML, by the byte with which they begin.
pub(crate) fn add_version(out: &mut String, bytes: &[u8]) -> Added {
    out.push_str("A document begins with its version: 01, 02 or 03, of WBXML 1.1, 1.2 and 1.3.\n")?;
    Ok(out.push_str(match bytes {
        [] => "",
        [b'<', ..] => "It begins with <, so it may be WML as text: compile it.\n",
        [0x1F, 0x8B, ..] => "It begins as a file of gzip: unpack it.\n",
        [b'H', b'T', b'T', b'P', ..] => {
            "It begins with the headers of HTTP: keep the body alone.\n"
        }
        [first, ..] => return Ok(write!(out, "It begins with {first:02X}.\n")?),
    })?)
}

/// The name of a number of character sets (IANA's MIBenum).
fn charset_name(number: u32) -> &'static str {
    match number {
        17 => " (Shift_JIS)",
        18 => " (EUC-JP)",
        38 => " (EUC-KR)",
        111 => " (ISO-8859-15)",
        113 => " (GBK)",
        1000 => " (ISO-10646-UCS-2)",
        1015 => " (UTF-16)",
        2025 => " (GB2312)",
        2026 => " (Big5)",
        2250 => " (windows-1250)",
        2251 => " (windows-1251)",
        2252 => " (windows-1252)",
        _ => "",
    }
}

/// What follows the public identifier.
pub(crate) fn after_identifier(bytes: &[u8]) -> Option<&[u8]> {
    match take_number(bytes.get(1..)?)? {
        (0, rest) => take_number(rest).map(|taken| taken.1),
        (_, rest) => Some(rest),
    }
}

/// Adds which character set a document has, and which it has to have.
pub(crate) fn add_charset(out: &mut String, bytes: &[u8]) -> Added {
    if let Some((number, _)) = after_identifier(bytes).and_then(|rest| take_number(rest)) {
        write!(
            out,
            "Its character set has the number {number}{}.\n",
            charset_name(number)
        )?;
    }
    Ok(out.push_str("US-ASCII (3), ISO-8859-1 (4) and UTF-8 (106, or 0) are read.\n")?)
}
