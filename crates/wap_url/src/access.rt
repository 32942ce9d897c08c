//! `Access`, who may enter a page.
ghost use Rattle.std.specs.Prelude.{◌≡◌, IsTrue, ◌↔◌, map, length, [], ◌∷◌, ◌++◌, drop};
ghost use Rattle.std.specs.Char.{to_ascii_lowercase};
ghost use Rattle.wap_url.specs.Segments.{labels, segments, IsPrefix, IsSuffix};
ghost use Rattle.wap_url.specs.inside.Segments.{EndsAt, BeginsAt};
ghost use Rattle.wap_url.specs.Access.{below_root, access_segments, without_empty_last};
ghost use Rattle.wap_base.specs.Ascii.{full_stop, slash};

use crate::Url;
use wap_base::Text;

/// Who may enter a page: callers whose host ends in the labels of `domain` and whose path begins
/// with the segments of `path`.
#[derive(Drop)]
pub struct Access {
    /// Labels in which a caller's host has to end.
    pub domain: Text,
    /// Segments with which a caller's path has to begin.
    pub path: Text,
}

impl Access {
    ghost use Rattle.wap_url.specs.Access.{IsAllowed};

    /// Whether a page of this URL may enter. The domain's letters count as lower case, as those of
    /// a URL's host are. A caller without a host may not enter.
    pub fn allows(&self, caller: &Url) -> bool
        ensures { IsTrue result ↔ IsAllowed self.now caller.now }
    {
        match &caller.host {
            Some(host) => allows_host(&self.domain, host) && allows_path(&self.path, &caller.path),
            None => false,
        }
    }
}

fn allows_host(domain: &Text, host: &Text) -> bool
    ensures { IsTrue result
        ↔ IsSuffix (labels (map to_ascii_lowercase domain.now)) (labels host.now) }
{
    ends_in_labels(host.as_str().as_bytes(), domain.as_str().as_bytes())
}

fn allows_path(access: &Text, path: &Text) -> bool
    ensures { IsTrue result
        ↔ IsPrefix (access_segments access.now) (segments (below_root path.now)) }
{
    begins_in_segments(
        after_root(path.as_str().as_bytes()),
        after_root(access.as_str().as_bytes()),
    )
}

/// Compares from the right: the bytes of the domain, and before them a dot or nothing.
fn ends_in_labels(host: &[u8], domain: &[u8]) -> bool
    ensures { IsTrue result
        ↔ IsSuffix (labels (map to_ascii_lowercase domain.now)) (labels host.now) }
{
    if host.len() < domain.len() {
        return false;
    }
    let (lead, tail) = host.split_at(host.len() - domain.len());
    ends_at_dot(lead) && is_lowered(tail, domain)
}

fn ends_at_dot(lead: &[u8]) -> bool
    ensures { IsTrue result ↔ EndsAt full_stop lead.now }
{
    match lead {
        [] => true,
        [.., last] => *last == b'.',
    }
}

fn is_lowered(bytes: &[u8], of: &[u8]) -> bool
    ensures { IsTrue result ↔ (bytes.now ≡ map to_ascii_lowercase of.now) }
{
    bytes.len() == of.len()
        && bytes
            .iter()
            .zip(of)
            .all(|(b, c)| *b == c.to_ascii_lowercase())
}

fn after_root(path: &[u8]) -> &[u8]
    ensures { result.now ≡ below_root path.now }
{
    match path {
        [b'/', rest @ ..] => rest,
        _ => path,
    }
}

/// Both stand without their leading slash.
fn begins_in_segments(path: &[u8], access: &[u8]) -> bool
    ensures { IsTrue result
        ↔ IsPrefix (without_empty_last (segments access.now)) (segments path.now) }
{
    if access.is_empty() {
        return true;
    }
    match access.strip_suffix(b"/") {
        Some(lead) => begins_with_all(path, lead),
        None => begins_with_all(path, access),
    }
}

fn begins_with_all(path: &[u8], lead: &[u8]) -> bool
    ensures { IsTrue result ↔ IsPrefix (segments lead.now) (segments path.now) }
{
    match path.strip_prefix(lead) {
        Some(rest) => begins_at_slash(rest),
        None => false,
    }
}

fn begins_at_slash(rest: &[u8]) -> bool
    ensures { IsTrue result ↔ BeginsAt slash rest.now }
{
    match rest {
        [] => true,
        [first, ..] => *first == b'/',
    }
}
