//! Fetching what was saved.
ghost use Rattle.std.specs.Prelude.{IfOk, IfErr};
ghost use Rattle.wap_image.specs.Images.{IsImage};
ghost use Rattle.wap_image.specs.Rules.{MayBeSaved};
ghost use Rattle.wap_cli.specs.resume.inside.Loading.{IsUnread, Loads};

use crate::Status;
use std::alloc::Global;
use wap_base::Text;
use wap_context::ContextParts;
use wap_devices::{Fetched, Store, StoreErr};
use wap_image::context_parts::ImageFault;
use wap_image::read;
use wap_pages::PageFault;

/// What was saved as these bytes, or how the command ends.
fn read_saved(alloc: Global, bytes: &[u8]) -> Result<(ContextParts, u32), Status>
    ensures image { IfOk result (λ saved. IsImage bytes.now saved) }
    ensures rules { IfOk result (λ saved. MayBeSaved saved.0 saved.1) }
    ensures unread { IfErr result (λ status. IsUnread bytes.now status) }
{
    match read(alloc, bytes) {
        Ok(saved) => Ok(saved),
        Err(ImageFault::NoMemory) => Err(Status::NoMemory),
        Err(fault) => Err(Status::Refused(PageFault::Image(fault))),
    }
}

/// What was saved under a name, or how the command ends.
pub(crate) fn fetch_saved<S: Store>(
    alloc: Global,
    name: &Text,
    store: &mut S,
) -> Result<(ContextParts, u32), Status>
    ensures { Loads name.now (S.seen store.old) (S.seen store.new) result }
{
    match store.fetch(name) {
        Ok(Fetched::Found(bytes)) => read_saved(alloc, bytes.as_slice()),
        Ok(Fetched::Missing) => Err(Status::Refused(PageFault::Missing)),
        Err(StoreErr::Failed) => Err(Status::StoreFault),
        Err(StoreErr::NoMemory) => Err(Status::NoMemory),
    }
}
