//! Lines that a user types: what a loop does that goes on after a wrong one.
ghost use Rattle.std.specs.Prelude.{◌≡◌, ◌≢◌, IfOk, IfErr, Err};
ghost use Rattle.wap_keys.specs.declared.fault.KeyFault.{KeyFault};
ghost use Rattle.wap_keys.specs.Lines.{content_key};
ghost use Rattle.wap_calling.specs.Calling.{keys_at, TypesTo};

use std::alloc::Global;
use wap_base::Rows;
use wap_keys::{KeyFault, content_key};
use wap_layout::buffer::Lines;
use wap_session::{Key, Session, SessionFault};
use wap_world::site::Pages;

/// What a line came to.
#[derive(Drop)]
pub enum Typed {
    /// Its key shows this; an empty line and a comment show nothing.
    Shown(Lines),
    /// It is no key line, and nothing was done.
    Wrong(KeyFault),
}

/// The key of a line, if it says one.
fn keys_of(alloc: Global, line: &[u8]) -> Result<Rows<Key>, KeyFault>
    ensures keys { IfOk result (λ keys. keys ≡ keys_at line.now) }
    ensures wrong { IfErr result (λ fault. fault ≢ KeyFault.NoMemory
        → content_key line.now ≡ Err fault) }
{
    let mut keys = Rows::new(alloc);
    if let Some(key) = content_key(alloc, line)? {
        keys.add(key)?;
    }
    Ok(keys)
}

/// Plays the key of a line, without its line feed. After a wrong line the session goes on.
///
/// # Errors
/// Those of `Session::play`.
pub fn type_line<P: Pages>(
    alloc: Global,
    session: &mut Session,
    line: &[u8],
    pages: &mut P,
) -> Result<Typed, SessionFault>
    ensures { IfOk result (TypesTo line.now (P.seen pages.new) session.old session.new) }
{
    match keys_of(alloc, line) {
        Ok(keys) => Ok(Typed::Shown(session.play(alloc, keys.as_slice(), pages)?)),
        Err(KeyFault::NoMemory) => Err(SessionFault::NoMemory),
        Err(fault) => Ok(Typed::Wrong(fault)),
    }
}
