//! Dialogs.
use wap_base::Text;

/// What a script asks its user (WAP-194, "Dialogs Library").
#[derive(Debug, Drop, PartialEq, Eq)]
pub enum Dialog {
    /// A message, and the answer that is there at first.
    Prompt(Text, Text),
    /// A message, and the labels of the two answers.
    Confirm(Text, Text, Text),
    /// A message.
    Alert(Text),
}
