//! Bytes that are gathered before they are written.
ghost use Rattle.std.specs.Prelude.{◌≡◌, [], true, false, ◌⊎◌};
ghost use Rattle.wap_dis.specs.inside.Gathering.{Gathers};
ghost use Rattle.wap_dis.specs.inside.Gathered.{state};

use arrayvec::ArrayVec;
use wap_devices::{Failed, Sink, write_all};

/// What is written next, and whether an earlier write failed; then nothing more is written.
#[derive(Drop)]
pub struct Held {
    /// What isn't written yet.
    pub bytes: ArrayVec<u8, 512>,
    /// Whether an earlier write failed.
    pub failed: bool,
}

/// Nothing yet.
pub(crate) fn nothing_held() -> Held
    ensures bytes { result.bytes.items ≡ [] }
    ensures failed { result.failed ≡ false }
{
    Held {
        bytes: ArrayVec::new(),
        failed: false,
    }
}

/// Puts bytes after what is held, and writes where there is no room.
pub(crate) fn put<O: Sink>(out: &mut O, held: &mut Held, piece: &[u8])
    ensures { Gathers (O.seen out.old) (O.seen out.new)
        (state held.old) (state held.new) piece.now }
{
    if held.failed {
        return;
    }
    match held.bytes.try_extend_from_slice(piece) {
        Ok(()) => {}
        Err(_) => write_out(out, held, piece),
    }
}

/// Writes what is held, and this after it.
fn write_out<O: Sink>(out: &mut O, held: &mut Held, piece: &[u8])
    requires { held.old.failed ≡ false }
    ensures puts { Gathers (O.seen out.old) (O.seen out.new) (state held.old) (state held.new) piece.now }
    ensures empty { (held.new.failed ≡ true) ⊎ (held.new.bytes.items ≡ []) }
{
    match write_all(out, held.bytes.as_slice()) {
        Ok(()) => match write_all(out, piece) {
            Ok(()) => held.bytes.clear(),
            Err(Failed) => held.failed = true,
        },
        Err(Failed) => held.failed = true,
    }
}

/// Writes what is held, if nothing failed before.
pub(crate) fn write_held<O: Sink>(out: &mut O, held: &mut Held)
    ensures puts { Gathers (O.seen out.old) (O.seen out.new) (state held.old) (state held.new) [] }
    ensures empty { (held.new.failed ≡ true) ⊎ (held.new.bytes.items ≡ []) }
{
    if held.failed {
        return;
    }
    write_out(out, held, &[]);
}
