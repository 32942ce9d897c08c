//! Rows of which most have few items.
ghost use Rattle.std.specs.Prelude.{◌≡◌, ◌++◌, ◌∷◌, [], OnOk};

use std::alloc::Global;
use std::mem;
use wap_base::{NoMemory, Rows};

/// Adds an item to the only one there is, in room for two.
fn add_second<T: Drop>(alloc: Global, rows: &mut Rows<T>, item: T) -> Result<(), NoMemory>
    ensures { OnOk result (rows.new ≡ rows.old ++ item ∷ []) }
{
    let mut items = mem::replace(rows, Rows::new(alloc)).into_vec();
    items.reserve_exact(1)?;
    items.push(item)?;
    *rows = Rows::from_vec(items);
    Ok(())
}

/// Adds an item. Rows of one item get room for one more, since most have no third.
#[inline(always)]
pub(crate) fn add_to_few<T: Drop>(
    alloc: Global,
    rows: &mut Rows<T>,
    item: T,
) -> Result<(), NoMemory>
    ensures { OnOk result (rows.new ≡ rows.old ++ item ∷ []) }
{
    if rows.len() == 1 {
        return add_second(alloc, rows, item);
    }
    rows.add(item)
}
