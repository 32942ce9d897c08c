//! Writing the parts of a context as an image.
ghost use Rattle.std.specs.Prelude.{◌≡◌, ◌<◌, ◌^◌, ◌∷◌, ◌++◌, ◌↔◌, length, true, false};
ghost use Rattle.std.specs.Prelude.{IfOk, OnOk, IsErrOf};
ghost use Rattle.std.specs.List.{flat_map, AllByRecursion};
ghost use Rattle.wap_base.specs.Numbers.{mb_spelling};
ghost use Rattle.wap_image.specs.declared.context_parts.fault.SaveFault.TheVariants.{Drawn, Card};
ghost use Rattle.wap_image.specs.Items.{is_drawn};
ghost use Rattle.wap_image.specs.Images.{IsImage};
ghost use Rattle.wap_image.specs.Rules.{AreParts, are_short};
ghost use Rattle.wap_image.specs.Spelling.{text_spelling, limits_spelling, timer_spelling};
ghost use Rattle.wap_image.specs.Spelling.{variable_spelling, entry_spelling};
ghost use Rattle.wap_image.specs.Spelling.{variables_spelling, entries_spelling, spelling};
ghost use Rattle.wap_image.specs.inside.Fitting.{FitsText, FitsVariable, FitsEntry, FitsParts};

use crate::context_parts::{ContextParts, SaveFault, SavedTimer};
use crate::kind::{FORMAT, LETTER_I, LETTER_W, NOT_STARTED, OFF, RUNNING};
use crate::knowing::{know_entries, know_number, know_timer, know_variables};
use crate::short::are_short;
use std::alloc::Global;
use wap_base::{Bytes, Limits, NoMemory, Text, write_mb};

/// The one spelling of the parts of a context and of the turns of a key, with the shortest numbers.
pub fn save_parts(alloc: Global, parts: &ContextParts, budget: u32) -> Result<Bytes, SaveFault>
    requires parts { AreParts parts.now }
    requires turns { 0 < budget }
    ensures spelled { IfOk result (λ bytes. bytes ≡ spelling parts.now budget) }
    // The bytes that are written are the image of the parts, so reading them gives these back.
    ensures read { IfOk result (λ bytes. IsImage bytes (parts.now, budget)) }
    ensures drawn { IsErrOf result Drawn ↔ (is_drawn parts.now.drawn ≡ false) }
    ensures card { IsErrOf result Card
        ↔ ((is_drawn parts.now.drawn ≡ true) × (are_short parts.now ≡ false)) }
{
    if parts.drawn == u64::MAX {
        return Err(SaveFault::Drawn);
    }
    if !are_short(parts) {
        return Err(SaveFault::Card);
    }
    Ok(write_known(alloc, parts, budget)?)
}

/// The image of parts that can be written.
fn write_known(alloc: Global, parts: &ContextParts, budget: u32) -> Result<Bytes, NoMemory>
    requires parts { AreParts parts.now }
    requires turns { 0 < budget }
    requires drawn { is_drawn parts.now.drawn ≡ true }
    requires short { are_short parts.now ≡ true }
    ensures spelled { IfOk result (λ bytes. bytes ≡ spelling parts.now budget) }
    ensures read { IfOk result (λ bytes. IsImage bytes (parts.now, budget)) }
{
    know_number(parts.seed);
    know_number(parts.start);
    know_number(budget);
    know_timer(parts.timer);
    know_variables(parts.vars.as_slice());
    know_entries(parts.history.as_slice());
    write_image(alloc, parts, budget)
}

/// All items.
#[tactic(auto, unfolding(crate::specs::Spelling::spelling))]
fn write_image(alloc: Global, parts: &ContextParts, budget: u32) -> Result<Bytes, NoMemory>
    requires { FitsParts parts.now }
    ensures { IfOk result (λ bytes. bytes ≡ spelling parts.now budget) }
{
    let mut out = Bytes::new(alloc);
    out.add(&[LETTER_W, LETTER_I, FORMAT])?;
    write_mb(&mut out, parts.seed)?;
    write_mb(&mut out, parts.start)?;
    out.add(&parts.drawn.to_be_bytes())?;
    write_mb(&mut out, budget)?;
    write_limits(&mut out, parts.limits)?;
    write_timer(&mut out, parts.timer)?;
    write_variables(&mut out, parts.vars.as_slice())?;
    write_entries(&mut out, parts.history.as_slice())?;
    Ok(out)
}

fn write_limits(out: &mut Bytes, limits: Limits) -> Result<(), NoMemory>
    ensures { OnOk result (out.new ≡ out.old ++ limits_spelling limits) }
{
    write_mb(out, limits.string)?;
    out.add(&[limits.history, limits.depth])
}

fn write_timer(out: &mut Bytes, timer: SavedTimer) -> Result<(), NoMemory>
    ensures { OnOk result (out.new ≡ out.old ++ timer_spelling timer) }
{
    match timer {
        SavedTimer::NotStarted => out.add(&[NOT_STARTED]),
        SavedTimer::Running(tenths) => {
            out.add(&[RUNNING])?;
            write_mb(out, tenths)
        }
        SavedTimer::Off => out.add(&[OFF]),
    }
}

fn write_text(out: &mut Bytes, text: &Text) -> Result<(), NoMemory>
    requires { FitsText text.now }
    ensures { OnOk result (out.new ≡ out.old ++ text_spelling text.now) }
{
    write_sized(out, text.as_str().as_bytes())
}

/// Bytes after their number.
fn write_sized(out: &mut Bytes, content: &[u8]) -> Result<(), NoMemory>
    requires { length content.now < 2 ^ 32 }
    ensures { OnOk result
        (out.new ≡ out.old ++ (mb_spelling (length content.now) ++ content.now)) }
{
    write_mb(out, content.len() as u32)?;
    out.add(content)
}

fn write_variables(out: &mut Bytes, variables: &[(Text, Text)]) -> Result<(), NoMemory>
    requires few { length variables.now < 2 ^ 32 }
    requires each { AllByRecursion FitsVariable variables.now }
    ensures { OnOk result (out.new ≡ out.old ++ variables_spelling variables.now) }
{
    write_mb(out, variables.len() as u32)?;
    write_row(out, variables)
}

fn write_row(out: &mut Bytes, variables: &[(Text, Text)]) -> Result<(), NoMemory>
    requires { AllByRecursion FitsVariable variables.now }
    ensures { OnOk result (out.new ≡ out.old ++ flat_map variable_spelling variables.now) }
{
    for variable in variables {
        write_variable(out, variable)?;
    }
    Ok(())
}

fn write_variable(out: &mut Bytes, variable: &(Text, Text)) -> Result<(), NoMemory>
    requires { FitsVariable variable.now }
    ensures { OnOk result (out.new ≡ out.old ++ variable_spelling variable.now) }
{
    write_text(out, &variable.0)?;
    write_text(out, &variable.1)
}

fn write_entries(out: &mut Bytes, entries: &[(Text, usize)]) -> Result<(), NoMemory>
    requires few { length entries.now < 2 ^ 8 }
    requires each { AllByRecursion FitsEntry entries.now }
    ensures { OnOk result (out.new ≡ out.old ++ entries_spelling entries.now) }
{
    out.add(&[entries.len() as u8])?;
    write_list(out, entries)
}

fn write_list(out: &mut Bytes, entries: &[(Text, usize)]) -> Result<(), NoMemory>
    requires { AllByRecursion FitsEntry entries.now }
    ensures { OnOk result (out.new ≡ out.old ++ flat_map entry_spelling entries.now) }
{
    for entry in entries {
        write_entry(out, entry)?;
    }
    Ok(())
}

fn write_entry(out: &mut Bytes, entry: &(Text, usize)) -> Result<(), NoMemory>
    requires { FitsEntry entry.now }
    ensures { OnOk result (out.new ≡ out.old ++ entry_spelling entry.now) }
{
    write_text(out, &entry.0)?;
    write_mb(out, entry.1 as u32)
}
