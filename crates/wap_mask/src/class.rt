//! The classes of characters that a mask's letters stand for.

/// The characters that a letter of a mask stands for (WAP-191, section 11.6.3). A mark is a
/// character of ASCII, the space among them, that is no letter, no digit and no control character.
#[derive(Clone, Copy)]
pub enum Class {
    /// `A`
    UpperOrMark,
    /// `a`
    LowerOrMark,
    /// `N`
    Digit,
    /// `n`
    DigitOrMark,
    /// `X`
    UpperDigitOrMark,
    /// `x`
    LowerDigitOrMark,
    /// `M` and `m`
    Any,
}

impl Class {
    ghost use Rattle.std.specs.Prelude.{◌≡◌, option_copied};
    ghost use Rattle.wap_mask.specs.Characters.{is_in, class_of};

    /// The class that a letter stands for.
    pub(crate) fn of(letter: char) -> Option<Class>
        ensures { result ≡ class_of letter }
    {
        match letter {
            'A' => Some(Class::UpperOrMark),
            'a' => Some(Class::LowerOrMark),
            'N' => Some(Class::Digit),
            'n' => Some(Class::DigitOrMark),
            'X' => Some(Class::UpperDigitOrMark),
            'x' => Some(Class::LowerDigitOrMark),
            'M' | 'm' => Some(Class::Any),
            _ => None,
        }
    }

    /// Whether the class has the character.
    pub(crate) fn has(self, character: char) -> bool
        ensures { result ≡ is_in self character }
    {
        let mark = matches!(character, ' '..='~') && !character.is_ascii_alphanumeric();
        match self {
            Class::UpperOrMark => character.is_ascii_uppercase() || mark,
            Class::LowerOrMark => character.is_ascii_lowercase() || mark,
            Class::Digit => character.is_ascii_digit(),
            Class::DigitOrMark => character.is_ascii_digit() || mark,
            Class::UpperDigitOrMark => {
                character.is_ascii_uppercase() || character.is_ascii_digit() || mark
            }
            Class::LowerDigitOrMark => {
                character.is_ascii_lowercase() || character.is_ascii_digit() || mark
            }
            Class::Any => true,
        }
    }
}
