//! What one line says among lists of keys.
ghost use Rattle.wap_keys.specs.lists.Lists.{content_item};

use crate::line::Says;
use crate::{Key, KeyFault};
use std::alloc::Global;
use wap_base::NoMemory;

/// A key, or what stands between two lists.
#[derive(Drop)]
pub enum Item {
    Key(Key),
    Divider,
}

impl Says for Item {
    ghost use Rattle.std.specs.Prelude.{refl};

    ghost meaning = { content_item };

    ghost empty = { refl };

    fn of(alloc: Global, content: &[u8]) -> Result<Result<Option<Item>, KeyFault>, NoMemory> {
        match content {
            [b'%'] => Ok(Ok(Some(Item::Divider))),
            _ => match Key::of(alloc, content)? {
                Ok(None) => Ok(Ok(None)),
                Ok(Some(key)) => Ok(Ok(Some(Item::Key(key)))),
                Err(fault) => Ok(Err(fault)),
            },
        }
    }
}
