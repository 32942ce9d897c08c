//! Walks over the characters of a text.
ghost use Rattle.std.specs.Prelude.{◌≡◌, ◌<◌, ◌≤◌, ◌-◌, [], ◌∷◌, ◌++◌, length, drop, MatchOption};
ghost use Rattle.std.specs.Str.{chars, IsUtf8, IsCharBoundary};
ghost use Rattle.wap_libs.specs.Characters.{part};

/// The first character of a text, and what follows it.
pub(crate) fn first_of(text: &str) -> Option<(char, &str)>
    ensures { MatchOption result (chars text.now ≡ [])
        (λ first. (chars text.now ≡ first.0 ∷ chars first.1.now) × IsUtf8 first.1.now
        × (length first.1.now < length text.now)
        × (first.1.now ≡ drop (length text.now - length first.1.now) text.now)) }
{
    let mut characters = text.chars();
    let first = characters.next()?;
    Some((first, characters.as_str()))
}

/// The last character of a text, and what is before it.
pub(crate) fn last_of(text: &str) -> Option<(char, &str)>
    ensures { MatchOption result (chars text.now ≡ [])
        (λ last. (chars text.now ≡ chars last.1.now ++ last.0 ∷ []) × IsUtf8 last.1.now
        × (length last.1.now < length text.now)) }
{
    let mut characters = text.chars();
    match characters.next_back() {
        Some(last) => Some((last, characters.as_str())),
        None => None,
    }
}

/// What follows so many characters, as far as there are. Where these are ASCII, each is a byte.
fn skip(text: &str, count: usize) -> &str
    ensures value { chars result.now ≡ drop count (chars text.now) }
    ensures shorter { length result.now ≤ length text.now }
    ensures end { result.now ≡ drop (length text.now - length result.now) text.now }
    ensures cut { IsCharBoundary text.now (length text.now - length result.now) }
{
    let most = count.min(text.len());
    if text.as_bytes()[..most].is_ascii() {
        return &text[most..];
    }
    let mut rest = text;
    let mut left = count;
    while left > 0 {
        match first_of(rest) {
            Some((_, behind)) => {
                rest = behind;
                left -= 1;
            }
            None => return rest,
        }
    }
    rest
}

/// So many characters from a place on, as far as there are.
pub fn part(text: &str, start: usize, count: usize) -> &str
    ensures { chars result.now ≡ part (chars text.now) start count }
{
    let behind = skip(text, start);
    let rest = skip(behind, count);
    &behind[..behind.len() - rest.len()]
}
