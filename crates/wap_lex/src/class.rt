//! Classes of bytes, and how far bytes of one class reach.
ghost use Rattle.std.specs.Prelude.{◌≡◌, ◌≤◌, length};
ghost use Rattle.std.specs.List.{prefix_len};
ghost use Rattle.wap_lex.specs.Characters.{is_in};

/// A class of bytes.
#[derive(Clone, Copy)]
pub(crate) enum Class {
    /// What may stand in a word after its first character.
    InWord,
    Digit,
    OctalDigit,
    HexadecimalDigit,
    /// White space, the ends of lines included.
    White,
    /// What isn't the end of a line.
    InLine,
}

/// Whether a byte is of a class.
pub(crate) fn is_in(class: Class, byte: u8) -> bool
    ensures { result ≡ is_in class byte }
{
    match class {
        Class::InWord => byte.is_ascii_alphabetic() || byte == b'_' || byte.is_ascii_digit(),
        Class::Digit => byte.is_ascii_digit(),
        Class::OctalDigit => matches!(byte, b'0'..=b'7'),
        Class::HexadecimalDigit => byte.is_ascii_hexdigit(),
        Class::White => matches!(byte, b' ' | 0x09..=0x0D),
        Class::InLine => !matches!(byte, b'\n' | b'\r'),
    }
}

/// How many bytes of a class stand at the beginning.
pub(crate) fn run_len(class: Class, bytes: &[u8]) -> usize
    ensures run { result ≡ prefix_len (is_in class) bytes.now }
    ensures within { result ≤ length bytes.now }
{
    for (at, byte) in bytes.iter().enumerate() {
        if !is_in(class, *byte) {
            return at;
        }
    }
    bytes.len()
}
