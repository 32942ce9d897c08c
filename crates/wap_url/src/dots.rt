//! Paths without dot segments (RFC 2396, section 5.2, step 6, but of every path, and with a `..`
//! that never goes above the root, which is this project's own).
ghost use Rattle.std.specs.Prelude.{◌≡◌, ◌++◌, map, IfOk, OnOk};
ghost use Rattle.std.specs.Str.{chars};
ghost use Rattle.wap_url.specs.Segments.{segments, path_of};
ghost use Rattle.wap_url.specs.Joining.{resolved_path, without_dots, kept_with, is_dot_segment};

use std::alloc::Global;
use wap_base::{NoMemory, Text};

/// The path without dot segments. A slash at its beginning stays.
pub(crate) fn resolved_path(alloc: Global, path: &Text) -> Result<Text, NoMemory>
    ensures { IfOk result (λ resolved. resolved ≡ resolved_path path.now) }
{
    let mut resolved = Text::new(alloc);
    if let Some(rest) = path.as_str().strip_prefix('/') {
        resolved.push('/')?;
        add_without_dots(alloc, &mut resolved, rest)?;
        return Ok(resolved);
    }
    add_without_dots(alloc, &mut resolved, path.as_str())?;
    Ok(resolved)
}

fn add_without_dots(alloc: Global, out: &mut Text, path: &str) -> Result<(), NoMemory>
    ensures { OnOk result
        (out.new ≡ out.old ++ path_of (without_dots (segments (chars path.now)))) }
{
    let kept = kept_segments(alloc, path)?;
    add_joined(out, &kept)
}

/// The segments of a path that are left, in order.
fn kept_segments<'a>(alloc: Global, path: &'a str) -> Result<Vec<&'a str>, NoMemory>
    ensures { IfOk result (λ kept. map (λ s. s.now) kept.items ≡ without_dots (segments path.now)) }
{
    let mut kept = Vec::new(alloc);
    let mut rest = path;
    while let Some((segment, after)) = rest.split_once('/') {
        keep(&mut kept, segment)?;
        rest = after;
    }
    keep(&mut kept, rest)?;
    if is_dots(rest) {
        kept.push("")?;
    }
    Ok(kept)
}

/// One more segment: `..` takes the one before it.
fn keep<'a>(kept: &mut Vec<&'a str>, segment: &'a str) -> Result<(), NoMemory>
    ensures { OnOk result
        (map (λ s. s.now) kept.new.items
        ≡ kept_with (map (λ s. s.now) kept.old.items) segment.now) }
{
    if segment == ".." {
        kept.pop();
    } else if segment != "." {
        kept.push(segment)?;
    }
    Ok(())
}

fn is_dots(segment: &str) -> bool
    ensures { result ≡ is_dot_segment segment.now }
{
    segment == "." || segment == ".."
}

fn add_joined(out: &mut Text, segments: &[&str]) -> Result<(), NoMemory>
    ensures { OnOk result (out.new ≡ out.old ++ path_of (map (λ s. chars s.now) segments.now)) }
{
    for (i, segment) in segments.iter().enumerate() {
        if i > 0 {
            out.push('/')?;
        }
        out.add(segment)?;
    }
    Ok(())
}
