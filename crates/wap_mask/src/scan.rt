//! A text, character by character.
ghost use Rattle.std.specs.Prelude.{◌≡◌, [], ◌∷◌, MatchOption};
ghost use Rattle.std.specs.Str.{chars};
ghost use Rattle.wap_base.specs.Texts.{is_empty};

/// The first character of a text, and what follows it.
pub(crate) fn first_of(text: &str) -> Option<(char, &str)>
    ensures { MatchOption result
        (chars text.now ≡ []) (λ first. chars text.now ≡ first.0 ∷ chars first.1.now) }
{
    let mut characters = text.chars();
    let first = characters.next()?;
    Some((first, characters.as_str()))
}

/// Whether no character is left.
pub(crate) fn is_at_end(text: &str) -> bool
    ensures { result ≡ is_empty (chars text.now) }
{
    text.is_empty()
}
