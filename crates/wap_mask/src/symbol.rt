//! The symbols of a mask, and what of a text each of them takes.
ghost use Rattle.std.specs.Prelude.{◌≡◌, MatchOption, option_map, Option};
ghost use Rattle.std.specs.Str.{chars};
ghost use Rattle.wap_mask.specs.Calculation.{class_at};

use crate::Class;
use crate::run::{after_all, after_up_to};
use crate::scan::{first_of, is_at_end};

/// What a mask is made of. The last two repeat, and stand at a mask's end alone.
#[derive(Clone, Copy)]
pub enum Symbol {
    /// One character of the class.
    One(Class),
    /// This character.
    Exactly(char),
    /// Up to so many characters of the class, none included.
    UpTo(u8, Class),
    /// Any number of characters of the class, none included.
    AnyNumber(Class),
}

impl Symbol {
    ghost use Rattle.wap_mask.specs.Grammar.{repeats};
    ghost use Rattle.wap_mask.specs.Calculation.{after, symbol_at, is_misplaced};

    /// What is left of a text that begins with what the symbol takes, the most that it can.
    pub(crate) fn after(self, text: &str) -> Option<&str>
        ensures { option_map (λ rest. chars rest.now) result ≡ after self (chars text.now) }
    {
        match self {
            Symbol::One(class) => {
                let (character, rest) = first_of(text)?;
                class.has(character).then_some(rest)
            }
            Symbol::Exactly(wanted) => {
                let (character, rest) = first_of(text)?;
                (character == wanted).then_some(rest)
            }
            Symbol::UpTo(most, class) => Some(after_up_to(class, most, text)),
            Symbol::AnyNumber(class) => Some(after_all(class, text)),
        }
    }

    /// The symbol that a mask's text begins with, and what follows it.
    pub(crate) fn of(text: &str) -> Option<(Symbol, &str)>
        ensures { option_map (λ read. (read.0, chars read.1.now)) result
            ≡ symbol_at (chars text.now) }
    {
        let (first, rest) = first_of(text)?;
        match first {
            '\\' => {
                let (character, rest) = first_of(rest)?;
                Some((Symbol::Exactly(character), rest))
            }
            '*' => {
                let (class, rest) = class_at(rest)?;
                Some((Symbol::AnyNumber(class), rest))
            }
            '1'..='9' => {
                let (class, rest) = class_at(rest)?;
                let most = (first as u32 - '0' as u32) as u8;
                Some((Symbol::UpTo(most, class), rest))
            }
            _ => {
                let (class, rest) = class_at(text)?;
                Some((Symbol::One(class), rest))
            }
        }
    }

    /// Whether the symbol may take more or fewer characters than one.
    pub(crate) fn repeats(self) -> bool
        ensures { result ≡ repeats self }
    {
        matches!(self, Symbol::UpTo(..) | Symbol::AnyNumber(..))
    }

    /// Whether the symbol repeats though more of the mask's text follows it.
    pub(crate) fn is_misplaced(self, rest: &str) -> bool
        ensures { result ≡ is_misplaced self (chars rest.now) }
    {
        self.repeats() && !is_at_end(rest)
    }
}

/// The class of the letter that a text begins with, and what follows it.
fn class_at(text: &str) -> Option<(Class, &str)>
    ensures { option_map (λ read. (read.0, chars read.1.now)) result ≡ class_at (chars text.now) }
{
    let (letter, rest) = first_of(text)?;
    Some((Class::of(letter)?, rest))
}
