//! Commands on a compiled unit.
ghost use Rattle.std.specs.Prelude.{◌≡◌, ◌<◌, ◌^◌, length, IfOk};
ghost use Rattle.wap_keys.specs.declared.words.words.PageCommand.TheVariants as command;
ghost use Rattle.wap_cli.specs.Answers.{Finds};
ghost use Rattle.wap_cli.specs.inspect.Units.{unit_line};

use itoa::Buffer;
use std::alloc::Global;
use wap_base::{Bytes, NoMemory};
use wap_pages::{PageErr, verified_in};
use wap_unit::Unit;

/// The line of a page that is a unit which may be run.
pub fn verify_line(alloc: Global, bytes: &[u8]) -> Result<Bytes, PageErr>
    requires { length bytes.now < 2 ^ 32 }
    ensures { Finds command.Verify bytes.now result }
{
    let verified = verified_in(alloc, bytes)?;
    Ok(line_of(alloc, verified.unit())?)
}

fn line_of(alloc: Global, unit: &Unit) -> Result<Bytes, NoMemory>
    ensures { IfOk result (λ line. line ≡ unit_line unit.now) }
{
    let mut buffer = Buffer::new();
    let count = buffer.format(unit.functions.as_slice().len());
    let mut line = Bytes::of(alloc, b"ok unit functions=")?;
    line.add(count.as_bytes())?;
    line.add(b"\n")?;
    Ok(line)
}
