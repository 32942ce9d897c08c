//! Control characters, as they are shown.
ghost use Rattle.std.specs.Prelude.{◌≡◌, IfOk};
ghost use Rattle.std.specs.Str.{chars};
ghost use Rattle.wap_base.specs.Controls.{is_control, shown_character, shown_text};

use crate::{NoMemory, Text};
use std::alloc::Global;

/// Whether a character is a control character: U+0000 to U+001F and U+007F to U+009F. Unicode,
/// general category Cc.
pub fn is_control(character: char) -> bool
    ensures { result ≡ is_control character }
{
    character < ' ' || ('\x7f' <= character && character < '\u{a0}')
}

/// A character as it is shown: a control character as a dot. This project's own.
pub fn shown_character(character: char) -> char
    ensures { result ≡ shown_character character }
{
    if is_control(character) {
        '.'
    } else {
        character
    }
}

/// A text as it is shown.
pub fn shown_text(alloc: Global, text: &str) -> Result<Text, NoMemory>
    ensures { IfOk result (λ shown. shown ≡ shown_text (chars text.now)) }
{
    let mut shown = Text::new(alloc);
    for character in text.chars() {
        shown.push(shown_character(character))?;
    }
    Ok(shown)
}
