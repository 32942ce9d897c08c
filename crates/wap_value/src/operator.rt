//! The operators.

/// An operator of one operand.
#[derive(Clone, Copy)]
pub enum UnOp {
    /// `+`
    Plus,
    /// `-`
    Minus,
    /// `~`
    BitNot,
    /// `!`
    Not,
    /// `typeof`
    TypeOf,
    /// `isvalid`
    IsValid,
    /// What a condition and the operands of `&&` and `||` become.
    ToBool,
    /// `++`
    Incr,
    /// `--`
    Decr,
}

/// An operator of two operands.
#[derive(Clone, Copy)]
pub enum BinOp {
    /// `*`
    Mul,
    /// `/`, whose result would be a Float.
    Div,
    /// `div`
    IDiv,
    /// `%`
    Rem,
    /// `+`
    Add,
    /// `-`
    Sub,
    /// `<<`
    Shl,
    /// `>>`
    Shr,
    /// `>>>`
    UShr,
    /// `<`
    Lt,
    /// `<=`
    Le,
    /// `>`
    Gt,
    /// `>=`
    Ge,
    /// `==`
    Eq,
    /// `!=`
    Ne,
    /// `&`
    BitAnd,
    /// `^`
    BitXor,
    /// `|`
    BitOr,
    /// `&&`, whose second operand may never be evaluated.
    And,
    /// `||`, whose second operand may never be evaluated.
    Or,
    /// `,`
    Comma,
}

impl BinOp {
    ghost use Rattle.std.specs.Prelude.{IsTrue, ◌↔◌};
    ghost use Rattle.wap_value.specs.Binary.{TakesBoth};

    /// Whether the operator takes the values of both operands, so that `binary` may be asked.
    pub fn takes_both(self) -> bool
        ensures { IsTrue result ↔ TakesBoth self }
    {
        match self {
            BinOp::Mul
            | BinOp::Div
            | BinOp::IDiv
            | BinOp::Rem
            | BinOp::Add
            | BinOp::Sub
            | BinOp::Shl
            | BinOp::Shr
            | BinOp::UShr
            | BinOp::Lt
            | BinOp::Le
            | BinOp::Gt
            | BinOp::Ge
            | BinOp::Eq
            | BinOp::Ne
            | BinOp::BitAnd
            | BinOp::BitXor
            | BinOp::BitOr => true,
            BinOp::And | BinOp::Or | BinOp::Comma => false,
        }
    }
}
