//! Texts and values of attributes, as WML has them.
use crate::pieces::shown_on_line;
use std::fmt;
use wap_base::{Conv, Part};

/// Writes a text without references.
fn write_literal<W: fmt::Write>(f: &mut fmt::Formatter<W>, text: &str) -> fmt::Result {
    for character in text.chars() {
        match character {
            '&' => write!(f, "&amp;")?,
            '<' => write!(f, "&lt;")?,
            '>' => write!(f, "&gt;")?,
            '"' => write!(f, "&quot;")?,
            '$' => write!(f, "$$")?,
            _ => write!(f, "{}", shown_on_line(character))?,
        }
    }
    Ok(())
}

/// A text or a value, references to variables as `$(name)`.
#[derive(Clone, Copy)]
pub(crate) struct Parts<'a>(pub(crate) &'a [Part]);

impl fmt::Display for Parts<'_> {
    fn fmt<W: fmt::Write>(&self, f: &mut fmt::Formatter<W>) -> fmt::Result {
        for part in self.0 {
            match part {
                Part::Lit(text) => write_literal(f, text.as_str())?,
                Part::Var(name, conv) => {
                    let end = match conv {
                        Conv::Escape => ":escape",
                        Conv::Unescape => ":unesc",
                        Conv::Plain => "",
                    };
                    write!(f, "$({}{end})", name.text().as_str())?;
                }
            }
        }
        Ok(())
    }
}
