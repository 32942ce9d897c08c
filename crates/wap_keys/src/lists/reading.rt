//! Reading lists of keys to their end.
ghost use Rattle.std.specs.Prelude.{◌≡◌, IfOk};
ghost use Rattle.wap_keys.specs.declared.ending.Ending.TheVariants.{End};
ghost use Rattle.wap_keys.specs.lists.Lists.{all_of, lists_by};
ghost use Rattle.wap_keys.specs.lists.Read.{ReadsLists};

use crate::lists::item::Item;
use crate::reading::read_all;
use crate::{Ending, Key};
use std::alloc::Global;
use std::mem;
use wap_base::{NoMemory, Rows};
use wap_devices::Source;

/// The lists that dividers part.
fn parted(alloc: Global, items: Vec<Item>) -> Result<Vec<Rows<Key>>, NoMemory>
    ensures { IfOk result (λ lists. lists.items ≡ all_of (lists_by items.items End)) }
{
    let mut whole = Vec::new(alloc);
    let mut list = Rows::new(alloc);
    for one in items {
        match one {
            Item::Key(key) => list.add(key)?,
            Item::Divider => whole.push(mem::replace(&mut list, Rows::new(alloc)))?,
        }
    }
    whole.push(list)?;
    Ok(whole)
}

/// Reads lists of keys to their end: that of the source, a line that is no key line, a byte too
/// many, or a fault of the source.
pub fn read_lists<I: Source>(
    alloc: Global,
    source: &mut I,
) -> Result<(Vec<Rows<Key>>, Ending), NoMemory>
    ensures { ReadsLists (λ lists. lists.items) (I.seen source.old) (I.seen source.new) result }
{
    let (items, ending) = read_all(alloc, source)?;
    match ending {
        Ending::End => Ok((parted(alloc, items)?, Ending::End)),
        _ => Ok((Vec::new(alloc), ending)),
    }
}
