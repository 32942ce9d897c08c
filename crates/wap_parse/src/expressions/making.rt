//! Expressions and lists made of their parts.
ghost use Rattle.std.specs.Prelude.{◌≡◌, [], ◌∷◌, IfOk};
ghost use Rattle.wap_grammar.specs.reading.Expressions.{chained};

use std::alloc::Global;
use wap_base::{NoMemory, Rows};
use wap_grammar::program::{Boxed, Expr};
use wap_value::BinOp;

/// Operands, which are the first alone where there is no other.
pub(crate) fn chain_of(first: Boxed<Expr>, operands: Rows<(BinOp, Expr)>) -> Expr
    ensures { result ≡ chained first operands }
{
    if operands.is_empty() {
        return first.into_inner();
    }
    Expr::Chain(first, operands)
}

/// A list of one item.
pub fn list_of_one<T: Drop>(alloc: Global, item: T) -> Result<Rows<T>, NoMemory>
    ensures { IfOk result (λ items. items ≡ item ∷ []) }
{
    let mut items = Rows::new(alloc);
    items.add(item)?;
    Ok(items)
}
