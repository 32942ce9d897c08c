//! Calls of libraries.
use crate::{Dialog, Fatal};
use wap_value::Value;

/// What a call of a library function comes to.
#[derive(Debug, Drop, PartialEq, Eq)]
pub enum HostOut {
    /// The call gives a value, and the script goes on.
    Value(Value),
    /// The script ends with a value.
    Exit(Value),
    /// The script ends abnormally.
    Fatal(Fatal),
    /// The script waits for the answer to a dialog, which is what the call then gives.
    Asks(Dialog),
}
