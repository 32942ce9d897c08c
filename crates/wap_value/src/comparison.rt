//! How two values are ordered.
ghost use Rattle.std.specs.Prelude.{◌≡◌, IfOk};
ghost use Rattle.std.specs.Ordering.{int_cmp};
ghost use Rattle.wap_value.specs.Conversion.{integer_of};
ghost use Rattle.wap_value.specs.Order.{order_of, of_both};
ghost use Rattle.wap_value.specs.Binary.{test_of};

use crate::{BinOp, Value, to_int, to_str};
use std::alloc::Global;
use std::cmp::Ordering;
use wap_base::NoMemory;

/// The order of two values, or `None` where one of them can't be converted.
pub(crate) fn compare(
    alloc: Global,
    left: &Value,
    right: &Value,
) -> Result<Option<Ordering>, NoMemory>
    ensures { IfOk result (λ order. order ≡ order_of left.now right.now) }
{
    match (left, right) {
        (Value::Str(left), Value::Str(right)) => Ok(Some(left.cmp(right))),
        (Value::Str(left), _) => Ok(match to_str(alloc, right)? {
            Some(right) => Some(left.cmp(&right)),
            None => None,
        }),
        (_, Value::Str(right)) => Ok(match to_str(alloc, left)? {
            Some(left) => Some(left.cmp(right)),
            None => None,
        }),
        _ => Ok(order_of_integers(left, right)),
    }
}

fn order_of_integers(left: &Value, right: &Value) -> Option<Ordering>
    ensures { result ≡ of_both int_cmp (integer_of left.now) (integer_of right.now) }
{
    match (to_int(left), to_int(right)) {
        (Some(left), Some(right)) => Some(left.cmp(&right)),
        _ => None,
    }
}

/// Whether an operator is a comparison that holds at an order.
pub(crate) fn passes(op: BinOp, order: Ordering) -> bool
    ensures { result ≡ test_of op order }
{
    match op {
        BinOp::Lt => order.is_lt(),
        BinOp::Le => order.is_le(),
        BinOp::Gt => order.is_gt(),
        BinOp::Ge => order.is_ge(),
        BinOp::Eq => order.is_eq(),
        BinOp::Ne => order.is_ne(),
        BinOp::Mul
        | BinOp::Div
        | BinOp::IDiv
        | BinOp::Rem
        | BinOp::Add
        | BinOp::Sub
        | BinOp::Shl
        | BinOp::Shr
        | BinOp::UShr
        | BinOp::BitAnd
        | BinOp::BitXor
        | BinOp::BitOr
        | BinOp::And
        | BinOp::Or
        | BinOp::Comma => false,
    }
}
