//! The command on a source.
ghost use Rattle.std.specs.Prelude.{◌<◌, ◌^◌, length};
ghost use Rattle.wap_keys.specs.declared.words.words.PageCommand.TheVariants as command;
ghost use Rattle.wap_cli.specs.Answers.{Finds};

use std::alloc::Global;
use wap_base::Bytes;
use wap_compiled_laws::spelling::compiled_programs_are_spelled;
use wap_pages::{PageErr, compiled_in};
use wap_unit::encode;

/// The bytes of the unit that a page which is a source is compiled to.
pub fn compiled_bytes(alloc: Global, bytes: &[u8]) -> Result<Bytes, PageErr>
    requires { length bytes.now < 2 ^ 31 }
    ensures { Finds command.Compile bytes.now result }
{
    compiled_programs_are_spelled();
    let verified = compiled_in(alloc, bytes)?;
    Ok(encode(alloc, verified.unit())?)
}
