//! Where a text occurs in another.
ghost use Rattle.std.specs.Prelude.{◌≡◌, ◌<◌, length, None, MatchOption};
ghost use Rattle.std.specs.Str.{chars};
ghost use Rattle.std.specs.Str.Pattern.{FindsText, SplitsAroundMatch};
ghost use Rattle.wap_base.specs.Outcome.{Meets};
ghost use Rattle.wap_libs.specs.Occurrences.{place_of, replaced};
ghost use Rattle.wap_libs.specs.Outcome.{kept_within};

use crate::LibFault;
use crate::texts::argument::count;
use crate::texts::draft::Draft;
use std::alloc::Global;
use wap_value::Value;

/// The first place at which a part occurs in a text, by characters.
pub fn place_of(part: &str, text: &str) -> Option<usize>
    requires { 0 < length (chars part.now) }
    ensures { result ≡ place_of (chars part.now) (chars text.now) }
{
    match text.find(part) {
        Some(at) => Some(count(&text[..at])),
        None => None,
    }
}

/// What stands before the first occurrence of a part, and what follows it. One byte is looked for by
/// itself.
fn split_at_first<'a>(part: &str, text: &'a str) -> Option<(&'a str, &'a str)>
    ensures { MatchOption result (FindsText part.now text.now None)
        (λ split. SplitsAroundMatch (FindsText part.now) text.now split.0.now split.1.now) }
{
    match part.as_bytes() {
        [byte] if *byte < 128 => text.split_once(char::from(*byte)),
        _ => text.split_once(part),
    }
}

/// The text with `new` in place of each occurrence of `old`.
pub fn replace(
    alloc: Global,
    old: &str,
    new: &str,
    text: &str,
    limit: u32,
) -> Result<Value, LibFault>
    requires { 0 < length (chars old.now) }
    ensures { Meets LibFault.NoMemory (λ value. value) result
        (kept_within limit
        (Value.Str (replaced (chars old.now) (chars new.now) (chars text.now)))) }
{
    let mut draft = Draft::new(alloc, limit);
    let mut rest = text;
    while let Some((before, behind)) = split_at_first(old, rest) {
        if !before.is_empty() {
            draft.add(before)?;
        }
        draft.add(new)?;
        rest = behind;
    }
    draft.add(rest)?;
    draft.finish()
}
