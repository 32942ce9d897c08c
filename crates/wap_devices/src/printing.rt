//! How a fault is printed: its name, and its fields.
ghost use Rattle.std.specs.Prelude.{[], ◌∷◌};
ghost use Rattle.std.specs.List.{flat_map};
ghost use Rattle.wap_devices.specs.Sinks.{Puts};
ghost use Rattle.wap_devices.specs.Printing.{field_text, fault_text};

use crate::{Failed, Sink, write_all};
use itoa::Buffer;

/// A fault without fields.
pub fn print_name<O: Sink>(out: &mut O, name: &str) -> Result<(), Failed>
    ensures { Puts (fault_text name.now []) (O.seen out.old) (O.seen out.new) result }
{
    print_fault(out, name.as_bytes(), &[])
}

/// A fault with one field.
pub fn print_one<O: Sink>(out: &mut O, name: &str, field: usize) -> Result<(), Failed>
    ensures { Puts (fault_text name.now (field ∷ [])) (O.seen out.old) (O.seen out.new) result }
{
    print_fault(out, name.as_bytes(), &[field])
}

/// A name, and each field after a space.
pub fn print_fault<O: Sink>(out: &mut O, name: &[u8], fields: &[usize]) -> Result<(), Failed>
    ensures { Puts (fault_text name.now fields.now) (O.seen out.old) (O.seen out.new) result }
{
    write_all(out, name)?;
    print_fields(out, fields)
}

fn print_fields<O: Sink>(out: &mut O, fields: &[usize]) -> Result<(), Failed>
    ensures { Puts (flat_map field_text fields.now) (O.seen out.old) (O.seen out.new) result }
{
    for field in fields {
        print_field(out, *field)?;
    }
    Ok(())
}

fn print_field<O: Sink>(out: &mut O, field: usize) -> Result<(), Failed>
    ensures { Puts (field_text field) (O.seen out.old) (O.seen out.new) result }
{
    let mut buffer = Buffer::new();
    write_all(out, b" ")?;
    write_all(out, buffer.format(field).as_bytes())
}
