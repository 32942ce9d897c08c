//! Calls.
use wap_base::{Rows, Text};
use wap_value::Value;

/// What a fragment calls.
#[derive(Drop)]
pub struct Invocation {
    /// The name of the function.
    pub function: Text,
    /// What it is started with. A String is as long as its literal makes it.
    pub arguments: Rows<Value>,
}
