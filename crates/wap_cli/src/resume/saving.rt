//! Writing the image of a context.
ghost use Rattle.std.specs.Prelude.{◌≡◌, ◌<◌};
ghost use Rattle.wap_state.specs.Saved.{parts_of};
ghost use Rattle.wap_cli.specs.saving.Saving.{image_of};
ghost use Rattle.wap_cli.specs.resume.Saving.{WritesImage, IsWhole};

use crate::Status;
use crate::saving::save;
use std::alloc::Global;
use wap_context::Context;
use wap_devices::{Failed, Sink, write_all};
use wap_image::context_parts::SaveFault;
use wap_pages::PageFault;

/// Writes the image of a context whose keys have so many turns.
pub(crate) fn save_context<O: Sink>(
    alloc: Global,
    context: &Context,
    turns: u32,
    out: &mut O,
) -> Status
    requires { 0 < turns }
    ensures image { WritesImage (image_of (parts_of context.now.world) turns) (O.seen out.old)
        (O.seen out.new) result }
    ensures whole { result ≡ Status.Done
        → IsWhole (parts_of context.now.world) context.now.world }
{
    let image = match save(alloc, context, turns) {
        Ok(image) => image,
        Err(SaveFault::NoMemory) => return Status::NoMemory,
        Err(fault) => return Status::Refused(PageFault::Save(fault)),
    };
    match write_all(out, image.as_slice()) {
        Ok(()) => Status::Done,
        Err(Failed) => Status::WriteFault,
    }
}
