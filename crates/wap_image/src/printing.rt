//! How faults of images are printed.
ghost use Rattle.wap_devices.specs.Sinks.{Puts};
ghost use Rattle.wap_image.specs.Printing.{image_text, save_text};

use crate::context_parts::{ImageFault, SaveFault};
use wap_devices::{Failed, Sink, print_name, print_one};

/// Prints why bytes are no image.
pub fn print_image_fault<O: Sink>(out: &mut O, fault: ImageFault) -> Result<(), Failed>
    ensures { Puts (image_text fault) (O.seen out.old) (O.seen out.new) result }
{
    match fault {
        ImageFault::Head => print_name(out, "Head"),
        ImageFault::Short { at } => print_one(out, "Short", at),
        ImageFault::Number { at } => print_one(out, "Number", at),
        ImageFault::Text { at } => print_one(out, "Text", at),
        ImageFault::Name { at } => print_one(out, "Name", at),
        ImageFault::Range { at } => print_one(out, "Range", at),
        ImageFault::Url { at } => print_one(out, "Url", at),
        ImageFault::Rest { at } => print_one(out, "Rest", at),
        ImageFault::NoMemory => print_name(out, "NoMemory"),
    }
}

/// Prints why a context has no image.
pub fn print_save_fault<O: Sink>(out: &mut O, fault: SaveFault) -> Result<(), Failed>
    ensures { Puts (save_text fault) (O.seen out.old) (O.seen out.new) result }
{
    match fault {
        SaveFault::Drawn => print_name(out, "Drawn"),
        SaveFault::Card => print_name(out, "Card"),
        SaveFault::NoMemory => print_name(out, "NoMemory"),
    }
}
