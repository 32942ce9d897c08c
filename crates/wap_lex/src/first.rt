//! What a first byte tells.
ghost use Rattle.std.specs.Prelude.{◌≡◌};
ghost use Rattle.wap_lex.specs.ByFirst.{first_of};

/// What a first byte tells of the shapes that may begin with it.
#[derive(Clone, Copy)]
pub(crate) enum First {
    /// White space.
    White,
    /// What begins a word.
    Letter,
    Digit,
    Point,
    Quote,
    Slash,
    /// Anything else: a mark, or what begins nothing.
    Other,
}

/// What a byte tells where it is the first.
pub(crate) fn first_of(byte: u8) -> First
    ensures { result ≡ first_of byte }
{
    match byte {
        b' ' | 0x09..=0x0D => First::White,
        b'A'..=b'Z' | b'a'..=b'z' | b'_' => First::Letter,
        b'0'..=b'9' => First::Digit,
        b'.' => First::Point,
        b'\'' | b'"' => First::Quote,
        b'/' => First::Slash,
        _ => First::Other,
    }
}
