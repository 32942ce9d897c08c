//! Printing why a page is refused.
ghost use Rattle.std.specs.Prelude.{[], ◌∷◌};
ghost use Rattle.std.specs.List.{flat_map};
ghost use Rattle.wap_devices.specs.Printing.{field_text, fault_text};
ghost use Rattle.wap_pages.specs.Printing.{step_text, path_text, at_path, page_text};
ghost use Rattle.wap_devices.specs.Sinks.{Puts};

use crate::PageFault;
use crate::deck_faults::print_deck_fault;
use crate::source_faults::print_compile_fault;
use crate::unit_faults::{print_unit_fault, print_verify_fault};
use itoa::Buffer;
use wap_devices::{Failed, Sink, print_fault, print_name, write_all};
use wap_image::{print_image_fault, print_save_fault};
use wap_wbxml::print_document_fault;

impl PageFault {
    /// Writes the name of the innermost fault and its fields in order, as `Short 13`.
    pub fn print<O: Sink>(&self, out: &mut O) -> Result<(), Failed>
        ensures { Puts (page_text self.now) (O.seen out.old) (O.seen out.new) result }
    {
        print_page_fault(out, self)
    }
}

fn print_page_fault<O: Sink>(out: &mut O, fault: &PageFault) -> Result<(), Failed>
    ensures { Puts (page_text fault.now) (O.seen out.old) (O.seen out.new) result }
{
    match fault {
        PageFault::Missing => print_name(out, "Missing"),
        PageFault::Document(fault) => print_document_fault(out, *fault),
        PageFault::Deck(fault) => print_deck_fault(out, fault),
        PageFault::Source(fault) => print_compile_fault(out, *fault),
        PageFault::Unit(fault) => print_unit_fault(out, *fault),
        PageFault::Verify(fault) => print_verify_fault(out, *fault),
        PageFault::NotText => print_name(out, "NotText"),
        PageFault::Image(fault) => print_image_fault(out, *fault),
        PageFault::Save(fault) => print_save_fault(out, *fault),
        PageFault::NotDeck => print_name(out, "NotDeck"),
    }
}

/// A fault at a place of a function's code.
pub(crate) fn print_place<O: Sink>(
    out: &mut O,
    name: &str,
    function: u8,
    at: usize,
) -> Result<(), Failed>
    ensures { Puts (fault_text name.now (function ∷ at ∷ [])) (O.seen out.old) (O.seen out.new) result }
{
    print_fault(out, name.as_bytes(), &[function as usize, at])
}

fn print_field<O: Sink>(out: &mut O, field: usize) -> Result<(), Failed>
    ensures { Puts (field_text field) (O.seen out.old) (O.seen out.new) result }
{
    let mut buffer = Buffer::new();
    write_all(out, b" ")?;
    write_all(out, buffer.format(field).as_bytes())
}

/// A name, and a path after a space.
pub(crate) fn print_at<O: Sink>(out: &mut O, name: &[u8], path: &[usize]) -> Result<(), Failed>
    ensures { Puts (at_path name.now path.now) (O.seen out.old) (O.seen out.new) result }
{
    write_all(out, name)?;
    print_path(out, path)
}

/// A path, after a space.
fn print_path<O: Sink>(out: &mut O, path: &[usize]) -> Result<(), Failed>
    ensures { Puts (32 ∷ path_text path.now) (O.seen out.old) (O.seen out.new) result }
{
    match path.split_first() {
        None => print_space(out),
        Some((first, rest)) => {
            print_field(out, *first)?;
            print_steps(out, rest)
        }
    }
}

fn print_space<O: Sink>(out: &mut O) -> Result<(), Failed>
    ensures { Puts (32 ∷ []) (O.seen out.old) (O.seen out.new) result }
{
    write_all(out, b" ")
}

fn print_steps<O: Sink>(out: &mut O, numbers: &[usize]) -> Result<(), Failed>
    ensures { Puts (flat_map step_text numbers.now) (O.seen out.old) (O.seen out.new) result }
{
    for number in numbers {
        print_step(out, *number)?;
    }
    Ok(())
}

fn print_step<O: Sink>(out: &mut O, number: usize) -> Result<(), Failed>
    ensures { Puts (step_text number) (O.seen out.old) (O.seen out.new) result }
{
    let mut buffer = Buffer::new();
    write_all(out, b"/")?;
    write_all(out, buffer.format(number).as_bytes())
}
