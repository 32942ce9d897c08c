//! What one line says.
ghost use Rattle.std.specs.Prelude.{◌≡◌, ◌≢◌, [], Ok, Err, None, IfOk};
ghost use Rattle.wap_base.specs.Outcome.{Meets};
ghost use Rattle.wap_keys.specs.declared.fault.KeyFault.TheVariants.{NoMemory as OutOfMemory};
ghost use Rattle.wap_keys.specs.Lines.{Meaning, without_return, content_key};

use crate::{Key, KeyFault, read_key};
use std::alloc::Global;
use wap_base::NoMemory;

/// A line without a carriage return at its end.
pub fn without_return(line: &[u8]) -> &[u8]
    ensures { result.now ≡ without_return line.now }
{
    if line.ends_with(b"\r") {
        line.split_at(line.len() - 1).0
    } else {
        line
    }
}

/// The key of a line, if it says one: an empty line and a comment say none. The line is given
/// without its line feed and a carriage return before that.
#[inline(always)]
pub fn content_key(alloc: Global, content: &[u8]) -> Result<Option<Key>, KeyFault>
    ensures { Meets OutOfMemory (λ key. key) result (content_key content.now) }
{
    match content {
        [] | [b'#', ..] => Ok(None),
        _ => Ok(Some(read_key(alloc, content)?)),
    }
}

/// What a line may say, be it a key or something beside keys.
pub(crate) trait Says: Sized + Drop {
    /// What the content of a line says.
    ghost meaning: { Meaning Self };

    /// What a line says, without its line feed and a carriage return before that.
    fn of(alloc: Global, content: &[u8]) -> Result<Result<Option<Self>, KeyFault>, NoMemory>
        ensures is { IfOk result (λ said. said ≡ meaning content.now) }
        ensures known { IfOk result (λ said. said ≢ Err OutOfMemory) };

    /// An empty line says nothing.
    ghost empty: { meaning [] ≡ Ok None };
}

impl Says for Key {
    ghost use Rattle.std.specs.Prelude.{refl};

    ghost meaning = { content_key };

    ghost empty = { refl };

    // Inlined, so that what it answers isn't copied once more.
    #[inline(always)]
    fn of(alloc: Global, content: &[u8]) -> Result<Result<Option<Key>, KeyFault>, NoMemory> {
        match content_key(alloc, content) {
            Err(KeyFault::NoMemory) => Err(NoMemory),
            said => Ok(said),
        }
    }
}
