//! The characters of one class that a text begins with.
ghost use Rattle.std.specs.Prelude.{◌≡◌};
ghost use Rattle.std.specs.Str.{chars};
ghost use Rattle.wap_mask.specs.Calculation.{after_all, after_up_to};

use crate::Class;
use crate::scan::first_of;

/// What follows the characters of the class that a text begins with.
pub(crate) fn after_all(class: Class, text: &str) -> &str
    ensures { chars result.now ≡ after_all class (chars text.now) }
{
    let mut rest = text;
    while let Some((character, behind)) = first_of(rest) {
        if !class.has(character) {
            return rest;
        }
        rest = behind;
    }
    rest
}

/// The same of so many characters at most.
pub(crate) fn after_up_to(class: Class, most: u8, text: &str) -> &str
    ensures { chars result.now ≡ after_up_to class most (chars text.now) }
{
    let mut rest = text;
    for _ in 0..most {
        match first_of(rest) {
            Some((character, behind)) if class.has(character) => rest = behind,
            _ => return rest,
        }
    }
    rest
}
