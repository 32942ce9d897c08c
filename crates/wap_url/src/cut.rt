//! Where a part of a URL ends.
ghost use Rattle.std.specs.Prelude.{◌≡◌, ◌==◌, length, ◌&&◌, not, false};
ghost use Rattle.wap_base.specs.Cuts.{until, onward, begins_with};
ghost use Rattle.wap_url.specs.Characters.{is_allowed};
ghost use Rattle.wap_url.specs.inside.Cut.{stops};

/// What ends at a byte.
#[derive(Clone, Copy)]
pub enum Cut {
    /// What stands before the fragment: it ends at `#`, or at a byte that may not stand there.
    Fragment,
    Scheme,
    Authority,
    /// The host.
    Colon,
    /// The path.
    Question,
}

/// The bytes up to the first at which the part ends, and those from it on.
pub(crate) fn cut_at(bytes: &[u8], at: Cut) -> (&[u8], &[u8])
    ensures before { result.0.now ≡ until (stops at) bytes.now }
    ensures after { result.1.now ≡ onward (stops at) bytes.now }
{
    for (i, byte) in bytes.iter().enumerate() {
        if ends(at, *byte) {
            return bytes.split_at(i);
        }
    }
    bytes.split_at(bytes.len())
}

fn ends(at: Cut, byte: u8) -> bool
    ensures { result ≡ stops at byte }
{
    match at {
        Cut::Fragment => !may_stand(byte),
        Cut::Scheme => byte == b':' || byte == b'/' || byte == b'?',
        Cut::Authority => byte == b'/' || byte == b'?',
        Cut::Colon => byte == b':',
        Cut::Question => byte == b'?',
    }
}

fn may_stand(byte: u8) -> bool
    ensures { result ≡ is_allowed byte }
{
    if byte >= b'?' {
        byte <= b'~'
    } else {
        matches!(byte, b'$'..=b';' | b'=' | b'!')
    }
}

/// Whether the first byte is this one.
pub(crate) fn begins_with_byte(bytes: &[u8], byte: u8) -> bool
    ensures { result ≡ begins_with (λ c. c == byte) bytes.now }
{
    match bytes {
        [] => false,
        [first, ..] => *first == byte,
    }
}
