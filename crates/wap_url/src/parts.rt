//! The parts of what stands before a URL's fragment (RFC 2396, appendix B), each as a slice of it.
ghost use Rattle.std.specs.Prelude.{◌≡◌, ◌==◌, List, ℕ, Option};
ghost use Rattle.std.specs.Option.{option_copied, option_map, option_and_then};
ghost use Rattle.wap_base.specs.Cuts.{begins_with, after_one};
ghost use Rattle.wap_url.specs.Calculation.{scheme_of, after_scheme, begins_with_slashes};
ghost use Rattle.wap_url.specs.Calculation.{authority_of, after_authority, host_in, port_in};
ghost use Rattle.wap_url.specs.Calculation.{host_of, port_of, tail_of, path_part, query_part};

use crate::cut::{Cut, begins_with_byte, cut_at};

/// The parts of what stands before a URL's fragment.
#[derive(Clone, Copy)]
pub struct Slices<'a> {
    /// What stands before a `:` that comes before any `/` and `?`.
    pub scheme: Option<&'a [u8]>,
    /// The authority up to its first `:`.
    pub host: Option<&'a [u8]>,
    /// What follows the authority's first `:`.
    pub port: Option<&'a [u8]>,
    /// What follows the authority, up to the first `?`.
    pub path: &'a [u8],
    /// What follows the first `?`.
    pub query: Option<&'a [u8]>,
}

/// The parts, each cut once.
pub(crate) fn cut_parts(front: &[u8]) -> Slices<'_>
    ensures scheme { option_copied result.scheme ≡ scheme_of front.now }
    ensures host { option_copied result.host ≡ host_of front.now }
    ensures port { option_copied result.port ≡ port_of front.now }
    ensures path { result.path.now ≡ path_part front.now }
    ensures query { option_copied result.query ≡ query_part front.now }
{
    let (scheme, rest) = cut_scheme(front);
    let (authority, tail) = cut_authority(rest);
    let (host, port) = cut_port(authority);
    let (path, onward) = cut_at(tail, Cut::Question);
    Slices {
        scheme,
        host,
        port,
        path,
        query: after_one(onward),
    }
}

/// The scheme, and what follows it.
fn cut_scheme(front: &[u8]) -> (Option<&[u8]>, &[u8])
    ensures scheme { option_copied result.0 ≡ scheme_of front.now }
    ensures rest { result.1.now ≡ after_scheme front.now }
{
    let (scheme, onward) = cut_at(front, Cut::Scheme);
    if begins_with_byte(onward, b':') {
        (Some(scheme), &onward[1..])
    } else {
        (None, front)
    }
}

/// Whether the rest begins with `//`.
pub(crate) fn begins_with_slashes(rest: &[u8]) -> bool
    ensures { result ≡ begins_with_slashes rest.now }
{
    match rest {
        [first, second, ..] => *first == b'/' && *second == b'/',
        _ => false,
    }
}

/// The authority, and path and query.
fn cut_authority(rest: &[u8]) -> (Option<&[u8]>, &[u8])
    ensures authority { option_copied result.0 ≡ authority_of rest.now }
    ensures tail { result.1.now ≡ after_authority rest.now }
{
    if begins_with_slashes(rest) {
        let (authority, tail) = cut_at(&rest[2..], Cut::Authority);
        (Some(authority), tail)
    } else {
        (None, rest)
    }
}

/// Host and port of an authority.
fn cut_port(authority: Option<&[u8]>) -> (Option<&[u8]>, Option<&[u8]>)
    ensures host { option_copied result.0 ≡ option_map host_in (option_copied authority.entry) }
    ensures port { option_copied result.1
        ≡ option_and_then port_in (option_copied authority.entry) }
{
    match authority {
        Some(authority) => {
            let (host, onward) = cut_at(authority, Cut::Colon);
            (Some(host), after_one(onward))
        }
        None => (None, None),
    }
}

/// What follows the first byte, if there is one.
fn after_one(bytes: &[u8]) -> Option<&[u8]>
    ensures { option_copied result ≡ after_one bytes.now }
{
    match bytes {
        [] => None,
        [_, rest @ ..] => Some(rest),
    }
}
