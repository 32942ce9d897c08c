//! The operators on two Integers, in 32 bits.
ghost use Rattle.std.specs.Prelude.{◌≡◌, ◌≢◌, ℕ, ◌<◌, pos, IfSome, IfNone};
ghost use Rattle.wap_value.specs.Arithmetic.{integer_result_of, shl, ushr};

use crate::BinOp;

/// What an operator makes of two Integers, or `None` where that is no Integer.
pub(crate) fn integer_result(op: BinOp, left: i32, right: i32) -> Option<i32>
    ensures { result ≡ integer_result_of op left right }
{
    match op {
        BinOp::Mul => left.checked_mul(right),
        BinOp::IDiv => left.checked_div(right),
        BinOp::Rem => remainder(left, right),
        BinOp::Add => left.checked_add(right),
        BinOp::Sub => left.checked_sub(right),
        BinOp::Shl => shift_count(right).map(|count| shift_left(left, count)),
        BinOp::Shr => shift_count(right).map(|count| left >> count),
        BinOp::UShr => shift_count(right).map(|count| shift_right_unsigned(left, count)),
        BinOp::BitAnd => Some(left & right),
        BinOp::BitXor => Some(left ^ right),
        BinOp::BitOr => Some(left | right),
        BinOp::Div
        | BinOp::Lt
        | BinOp::Le
        | BinOp::Gt
        | BinOp::Ge
        | BinOp::Eq
        | BinOp::Ne
        | BinOp::And
        | BinOp::Or
        | BinOp::Comma => None,
    }
}

/// The remainder of a division that cuts toward zero; by -1 it is 0, also where the quotient would
/// be no Integer.
fn remainder(left: i32, right: i32) -> Option<i32>
    ensures { result ≡ integer_result_of BinOp.Rem left right }
{
    if right == 0 {
        None
    } else {
        Some(left.wrapping_rem(right))
    }
}

/// The lowest 32 bits of the number times 2 to the power `count`.
#[tactic(auto, using(crate::proofs::Shifts::wrapped_product_is_shift))]
fn shift_left(number: i32, count: u32) -> i32
    requires { count < 32 }
    ensures { result ≡ shl number count }
{
    number << count
}

/// The 32 bits of the number, moved to the right with zeros after them.
fn shift_right_unsigned(number: i32, count: u32) -> i32
    requires { count < 32 }
    ensures { result ≡ ushr number count }
{
    (number.cast_unsigned() >> count).cast_signed()
}

/// How many places a shift moves the bits, from 0 to 31.
fn shift_count(right: i32) -> Option<u32>
    ensures some { IfSome result (λ count. (count < 32) × (right ≡ pos count)) }
    ensures none { IfNone result ((count : ℕ) → count < 32 → right ≢ pos count) }
{
    match right {
        0..=31 => Some(right as u32),
        _ => None,
    }
}
