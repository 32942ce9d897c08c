//! Rows that are made with room for what is to come.
ghost use Rattle.std.specs.Prelude.{◌≡◌, [], IfOk};

use std::alloc::Global;
use wap_base::{NoMemory, Rows};

/// No items yet, and room for so many.
pub fn rows_for<T>(alloc: Global, count: usize) -> Result<Rows<T>, NoMemory>
    ensures { IfOk result (λ rows. rows ≡ []) }
{
    Ok(Rows::from_vec(Vec::with_capacity(alloc, count)?))
}
