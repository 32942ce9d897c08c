//! The values that attributes may have, in words.
use crate::decks::texts::Parts;
use crate::pieces::Added;
use std::alloc::Global;
use std::fmt::Write;
use wap_deckcheck::{LentForm, wrong_value};
use wap_tokens::markup::Node;
use wap_tokens::name_of_attr;

/// Adds what a value of a form is.
fn add_form(alloc: Global, out: &mut String, form: LentForm) -> Added {
    Ok(out.push_str(match form {
        LentForm::Words(words) => {
            return Ok(write!(out, "one of: {} (in lower case)", words.join(alloc, ", ")?)?);
        }
        LentForm::Variable => "the name of a variable: letters, digits and _, no digit first",
        LentForm::OptionalVariable => {
            "the name of a variable (letters, digits and _, no digit first), or empty"
        }
        LentForm::Plain => "a text without a reference to a variable",
    })?)
}

/// Adds which attribute of an element has a value that it may not have, and what it may be.
pub(crate) fn add_value(alloc: Global, out: &mut String, node: &Node) -> Added {
    if let Some((attr, form)) = wrong_value(node) {
        let (name, value) = (name_of_attr(attr.0), Parts(attr.1.as_slice()));
        write!(out, "The attribute {name} is \"{value}\". It has to be ")?;
        add_form(alloc, out, form)?;
        out.push_str(".\n")?;
    }
    Ok(())
}
