//! Calls of values and operators.
use crate::values::{give_condition, give_value, value};
use wap_base::{LEAST_STRING, MOST_STRING};
use wap_casebook::{Call, CaseFault};
use wap_value::{BinOp, UnOp, Value, ValueFault, binary, to_bool, to_int, to_str, unary};

/// The operators of two operands, as WMLScript spells them.
static OPERATORS: [(&str, BinOp); 21] = [
    ("*", BinOp::Mul),
    ("/", BinOp::Div),
    ("div", BinOp::IDiv),
    ("%", BinOp::Rem),
    ("+", BinOp::Add),
    ("-", BinOp::Sub),
    ("<<", BinOp::Shl),
    (">>", BinOp::Shr),
    (">>>", BinOp::UShr),
    ("<", BinOp::Lt),
    ("<=", BinOp::Le),
    (">", BinOp::Gt),
    (">=", BinOp::Ge),
    ("==", BinOp::Eq),
    ("!=", BinOp::Ne),
    ("&", BinOp::BitAnd),
    ("^", BinOp::BitXor),
    ("|", BinOp::BitOr),
    ("&&", BinOp::And),
    ("||", BinOp::Or),
    (",", BinOp::Comma),
];

/// The operators of one operand; `tobool` is what a condition does.
static OPERATORS_OF_ONE: [(&str, UnOp); 9] = [
    ("+", UnOp::Plus),
    ("-", UnOp::Minus),
    ("~", UnOp::BitNot),
    ("!", UnOp::Not),
    ("typeof", UnOp::TypeOf),
    ("isvalid", UnOp::IsValid),
    ("tobool", UnOp::ToBool),
    ("++", UnOp::Incr),
    ("--", UnOp::Decr),
];

/// Gives the value that an operator makes, or why it makes none.
fn give_made(call: &mut Call, made: Result<Value, ValueFault>) {
    match made {
        Ok(value) => give_value(call, &value),
        Err(fault) => call.give_named(&fault),
    }
}

/// What an operator makes of two values; `none` where it may not look at both.
pub fn of_two(call: &mut Call, string: u32) -> Result<(), CaseFault> {
    let op = call.meaning(&OPERATORS)?;
    let left = value(call);
    let right = value(call);
    if !op.takes_both() {
        call.give_word("none");
        return Ok(());
    }
    if string < LEAST_STRING || MOST_STRING < string {
        return Err(CaseFault::Argument);
    }
    let made = binary(call.alloc(), op, &left, &right, string);
    give_made(call, made);
    Ok(())
}

/// The same, under a limit of Strings.
pub fn of_two_within(call: &mut Call) -> Result<(), CaseFault> {
    let string = call.number32();
    of_two(call, string)
}

/// What an operator makes of a value.
pub fn of_one(call: &mut Call) -> Result<(), CaseFault> {
    let op = call.meaning(&OPERATORS_OF_ONE)?;
    let made = unary(op, value(call));
    give_value(call, &made);
    Ok(())
}

/// The whole number that a value is converted to.
pub fn give_integer(call: &mut Call) -> Result<(), CaseFault> {
    match to_int(&value(call)) {
        Some(number) => call.give_number(i64::from(number)),
        None => call.give_word("none"),
    }
    Ok(())
}

/// The truth that a value is converted to.
pub fn give_truth(call: &mut Call) -> Result<(), CaseFault> {
    match to_bool(&value(call)) {
        Some(is_true) => give_condition(call, is_true),
        None => call.give_word("none"),
    }
    Ok(())
}

/// The text that a value is converted to.
pub fn give_string(call: &mut Call) -> Result<(), CaseFault> {
    let value = value(call);
    match to_str(call.alloc(), &value)? {
        Some(text) => call.give_text(&text),
        None => call.give_word("none"),
    }
    Ok(())
}
