//! Marks: operators, separators and brackets (WAP-193, section 7.2).
ghost use Rattle.std.specs.Prelude.{◌≡◌, ◌+◌, ◌≤◌, length};
ghost use Rattle.wap_lex.specs.Calculation.{mark_len};
ghost use Rattle.wap_lex.specs.ByFirst.{tails_of, tail_len, after_assigned, after_doubled};
ghost use Rattle.wap_lex.specs.ByFirst.{after_less, after_greater, after_d};

/// How many bytes the longest mark at the beginning has, 0 where none begins.
#[inline(always)]
pub(crate) fn mark_len(bytes: &[u8]) -> usize
    ensures mark { result ≡ mark_len bytes.now }
    ensures within { result ≤ length bytes.now }
{
    match bytes {
        [] => 0,
        [first, rest @ ..] => mark_len_from(*first, rest),
    }
}

/// The same of a first byte and the bytes after it. Letters are tried most, and so first.
#[inline(always)]
fn mark_len_from(first: u8, rest: &[u8]) -> usize
    ensures mark { result ≡ tail_len (tails_of first) rest.now }
    ensures within { result ≤ 1 + length rest.now }
{
    match first {
        b'd' => division_len(rest),
        b'A'..=b'Z' | b'a'..=b'z' | b'_' => 0,
        b'(' | b')' | b'{' | b'}' | b',' | b';' | b'.' | b'#' | b'?' | b':' | b'~' => 1,
        b'=' | b'!' | b'*' | b'/' | b'%' | b'^' => assigned_len(rest),
        b'+' | b'-' | b'&' | b'|' => doubled_len(first, rest),
        b'<' => less_len(rest),
        b'>' => greater_len(rest),
        _ => 0,
    }
}

/// The same of an operator, or of it and `=`.
fn assigned_len(rest: &[u8]) -> usize
    ensures mark { result ≡ tail_len after_assigned rest.now }
    ensures within { result ≤ 1 + length rest.now }
{
    match rest {
        [b'=', ..] => 2,
        _ => 1,
    }
}

/// The same of an operator, of it twice, or of it and `=`.
fn doubled_len(first: u8, rest: &[u8]) -> usize
    ensures mark { result ≡ tail_len (after_doubled first) rest.now }
    ensures within { result ≤ 1 + length rest.now }
{
    match rest {
        [next, ..] if *next == first || *next == b'=' => 2,
        _ => 1,
    }
}

/// The same of `<`, `<=`, `<<` or `<<=`, after the first `<`.
fn less_len(rest: &[u8]) -> usize
    ensures mark { result ≡ tail_len after_less rest.now }
    ensures within { result ≤ 1 + length rest.now }
{
    match rest {
        [b'<', rest @ ..] => 1 + assigned_len(rest),
        _ => assigned_len(rest),
    }
}

/// The same of `>`, `>=`, `>>`, `>>=`, `>>>` or `>>>=`, after the first `>`.
fn greater_len(rest: &[u8]) -> usize
    ensures mark { result ≡ tail_len after_greater rest.now }
    ensures within { result ≤ 1 + length rest.now }
{
    match rest {
        [b'>', b'>', rest @ ..] => 2 + assigned_len(rest),
        [b'>', rest @ ..] => 1 + assigned_len(rest),
        _ => assigned_len(rest),
    }
}

/// The same of `div=`, after its `d`; no other mark begins with a letter.
fn division_len(rest: &[u8]) -> usize
    ensures mark { result ≡ tail_len after_d rest.now }
    ensures within { result ≤ 1 + length rest.now }
{
    match rest {
        [b'i', b'v', b'=', ..] => 4,
        _ => 0,
    }
}
