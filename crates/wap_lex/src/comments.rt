//! Comments (WAP-193, section 6.1.4).
ghost use Rattle.std.specs.Prelude.{◌≡◌, ◌≤◌, length, false};
ghost use Rattle.wap_lex.specs.Calculation.{comment_len, block_len, is_open_comment};

use crate::class::{Class, run_len};

/// How many bytes the comment at the beginning has, 0 where none begins that ends.
pub(crate) fn comment_len(bytes: &[u8]) -> usize
    ensures comment { result ≡ comment_len bytes.now }
    ensures within { result ≤ length bytes.now }
{
    match bytes {
        [b'/', b'/', rest @ ..] => 2 + run_len(Class::InLine, rest),
        [b'/', b'*', rest @ ..] => {
            let inside = block_len(rest);
            if inside == 0 { 0 } else { 2 + inside }
        }
        _ => 0,
    }
}

/// How many bytes come up to the first `*/`, which is counted too; 0 where none comes.
fn block_len(bytes: &[u8]) -> usize
    ensures block { result ≡ block_len false bytes.now }
    ensures within { result ≤ length bytes.now }
{
    let mut star = false;
    for (at, byte) in bytes.iter().enumerate() {
        if star && *byte == b'/' {
            return at + 1;
        }
        star = *byte == b'*';
    }
    0
}

/// Whether the bytes begin with a comment that the end of the source ends.
pub(crate) fn is_open_comment(bytes: &[u8]) -> bool
    ensures { result ≡ is_open_comment bytes.now }
{
    match bytes {
        [b'/', b'*', rest @ ..] => block_len(rest) == 0,
        _ => false,
    }
}
