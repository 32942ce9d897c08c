//! Lines as they are written.
ghost use Rattle.std.specs.Prelude.{◌≡◌, ◌++◌, OnOk, OnErr};
ghost use Rattle.wap_layout.specs.buffer.Written.{lines_bytes};

use wap_base::NoMemory;
use wap_layout::buffer::Lines;

/// Appends lines as they are written. When out of memory nothing is added.
pub fn add_lines(text: &mut Vec<u8>, lines: &Lines) -> Result<(), NoMemory>
    ensures ok { OnOk result (text.new.items ≡ text.old.items ++ lines_bytes lines.now) }
    ensures err { OnErr result (text.new.items ≡ text.old.items) }
{
    text.extend_from_slice(lines.as_written())?;
    Ok(())
}
