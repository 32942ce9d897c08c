//! Writing texts one after the other.
ghost use Rattle.std.specs.List.{flat_map};
ghost use Rattle.wap_devices.specs.Sinks.{Puts};

use wap_devices::{Failed, Sink, write_all};

/// Writes a text.
fn write_text<O: Sink>(text: &Vec<u8>, out: &mut O) -> Result<(), Failed>
    ensures { Puts text.now.items (O.seen out.old) (O.seen out.new) result }
{
    write_all(out, text.as_slice())
}

/// Writes texts one after the other.
pub(crate) fn write_texts<O: Sink>(texts: &[Vec<u8>], out: &mut O) -> Result<(), Failed>
    ensures { Puts (flat_map (λ text. text.items) texts.now) (O.seen out.old) (O.seen out.new)
        result }
{
    for text in texts {
        write_text(text, out)?;
    }
    Ok(())
}
