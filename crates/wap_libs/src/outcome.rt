//! What a call of a function comes to.
use wap_base::Text;
use wap_value::Value;

/// What a call of a function comes to.
#[derive(Debug, Drop, PartialEq, Eq)]
pub enum LibOut {
    /// The call gives a value, and the script goes on.
    Value(Value),
    /// The script ends with a value.
    Exit(Value),
    /// The script ends abnormally, with a message.
    Abort(Text),
}
