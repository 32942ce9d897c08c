//! What comes of a text that is entered, and of an option that is chosen.
use crate::Task;
use wap_base::Rows;
use wap_vars::VarFault;

/// What comes of a text that is entered into a field.
#[derive(Clone, Copy, Debug, PartialEq, Eq)]
pub enum Entered {
    /// The field of this number is no input.
    NoInput,
    /// The field doesn't take the text.
    Refused,
    /// As many variables are kept as may be.
    Full,
    /// The text is the field's.
    Set,
}

/// What comes of an option that is chosen in a field.
#[derive(Debug, Drop, PartialEq, Eq)]
pub enum Chosen {
    /// The field of this number is no select, or has no option of this number.
    NoOption,
    /// The variables that refused their text, in order, and the task of the option's `onpick`.
    Set(Rows<VarFault>, Option<Task>),
}
