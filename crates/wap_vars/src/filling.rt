//! Values filled from variables.
ghost use Rattle.std.specs.Prelude.{◌≡◌, ◌++◌, IfOk, OnOk};
ghost use Rattle.std.specs.Option.{option_copied};
ghost use Rattle.wap_vars.specs.Filling.{converted, filled, value_text};

use crate::Vars;
use std::alloc::Global;
use wap_base::{Conv, NoMemory, Part, Rows, Text};
use wap_url::{escape, unescape};

/// Appends the text as a reference asks for it.
fn add_converted(alloc: Global, whole: &mut Text, conv: Conv, text: &Text) -> Result<(), NoMemory>
    ensures { OnOk result (whole.new ≡ whole.old ++ converted conv text.now) }
{
    match conv {
        Conv::Escape => whole.add(escape(alloc, text)?.as_str()),
        Conv::Unescape => {
            let bytes = unescape(alloc, text)?;
            whole.add(String::from_utf8_lossy(alloc, bytes.as_slice())?.as_str())
        }
        Conv::Plain => whole.add(text.as_str()),
    }
}

impl Vars {
    /// The value whose parts these are. A variable that isn't set is the empty text.
    pub fn fill(&self, alloc: Global, parts: &[Part]) -> Result<Text, NoMemory>
        ensures { IfOk result (λ text. text ≡ filled self.now parts.now) }
    {
        let mut filled = Text::new(alloc);
        for part in parts {
            match part {
                Part::Lit(text) => filled.add(text.as_str())?,
                Part::Var(name, conv) => {
                    if let Some(text) = self.get(name) {
                        add_converted(alloc, &mut filled, *conv, text)?;
                    }
                }
            }
        }
        Ok(filled)
    }

    /// The value of an attribute, filled, or nothing where there is none.
    pub fn fill_value(&self, alloc: Global, value: Option<&Rows<Part>>) -> Result<Text, NoMemory>
        ensures { IfOk result (λ text. text ≡ value_text self.now (option_copied value.entry)) }
    {
        match value {
            Some(parts) => self.fill(alloc, parts.as_slice()),
            None => Ok(Text::new(alloc)),
        }
    }
}
