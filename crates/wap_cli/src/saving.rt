//! Images of contexts: saving what a context keeps at rest.

mod resting;

ghost use Rattle.std.specs.Prelude.{◌≡◌, ◌<◌, IfOk};
ghost use Rattle.wap_base.specs.Outcome.{Meets};
ghost use Rattle.wap_image.specs.Images.{IsImage};
ghost use Rattle.wap_image.specs.declared.context_parts.fault.SaveFault.TheVariants.{NoMemory};
ghost use Rattle.wap_state.specs.Saved.{parts_of, saved_world, IsAtRest};
ghost use Rattle.wap_cli.specs.saving.Saving.{image_of};

pub use resting::keys_leave_worlds_at_rest;
use std::alloc::Global;
use wap_base::Bytes;
use wap_context::Context;
use wap_image::context_parts::SaveFault;
use wap_image::save_parts;

/// The image of a context whose keys have so many turns: the one spelling of its parts.
///
/// # Errors
/// `Drawn` where as many words were drawn as are counted, else `Card` where a number or a length
/// takes more than four bytes; and `NoMemory`.
pub fn save(alloc: Global, context: &Context, budget: u32) -> Result<Bytes, SaveFault>
    requires { 0 < budget }
    ensures image { Meets NoMemory (λ bytes. bytes) result
        (image_of (parts_of context.now.world) budget) }
    // Reading the image gives the parts and the turns again.
    ensures read { IfOk result (λ bytes. IsImage bytes (parts_of context.now.world, budget)) }
    // At rest they are all of the world but for the turns of a key.
    ensures whole { IfOk result (λ bytes. IsAtRest context.now.world
        → saved_world (parts_of context.now.world)
        ≡ record context.now.world { budget = 0; turns = 0 }) }
{
    let parts = context.parts(alloc)?;
    save_parts(alloc, &parts, budget)
}
