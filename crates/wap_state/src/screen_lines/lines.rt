//! Lines that are shown.
ghost use Rattle.std.specs.Prelude.{◌≡◌, ◌++◌, ◌∷◌, [], IfOk, OnOk, OnErr};
ghost use Rattle.std.specs.Str.{chars};
ghost use Rattle.std.specs.List.{flat_map};
ghost use Rattle.wap_url.specs.Segments.{IsPrefix};
ghost use Rattle.wap_world.specs.Lines.{refusal_line, marked, title_line, do_line};
ghost use Rattle.wap_world.specs.Setting.{fault_lines};

use std::alloc::Global;
use wap_base::{NoMemory, Text};
use wap_layout::buffer::Lines;
use wap_vars::VarFault;
use wap_world::Refusal;

/// The line of a refusal, as it stands in the program.
#[tactic(auto, using(wap_base::proofs::Plain::words))]
fn text_of(refusal: Refusal) -> &'static str
    ensures { chars result.now ≡ refusal_line refusal }
{
    match refusal {
        Refusal::Budget => "! budget",
        Refusal::Url => "! url",
        Refusal::Scheme => "! scheme",
        Refusal::Missing => "! missing",
        Refusal::Refused => "! refused",
        Refusal::Denied => "! denied",
        Refusal::First => "! first",
        Refusal::Ignored => "! ignored",
        Refusal::Mask => "! mask",
        Refusal::Full => "! full",
        Refusal::Long => "! long",
    }
}

/// Appends the line of a refusal. When out of memory nothing is added.
pub fn add_refusal(refusal: Refusal, lines: &mut Lines) -> Result<(), NoMemory>
    ensures ok { OnOk result (lines.new ≡ lines.old ++ refusal_line refusal ∷ []) }
    ensures kept { OnErr result (lines.new ≡ lines.old) }
{
    lines.add(text_of(refusal))
}

/// Appends the line of a set that was refused; a name that is none of a variable is passed over.
fn add_fault_line(fault: VarFault, lines: &mut Lines) -> Result<(), NoMemory>
    ensures ok { OnOk result (lines.new ≡ lines.old ++ fault_lines fault) }
    ensures kept { OnErr result (lines.new ≡ lines.old) }
{
    match fault {
        VarFault::TooLong { bytes: _ } => add_refusal(Refusal::Long, lines),
        VarFault::Full => add_refusal(Refusal::Full, lines),
        VarFault::BadName | VarFault::NoMemory => Ok(()),
    }
}

/// Appends a line for each set that was refused. When out of memory some of them may be added.
pub fn add_fault_lines(faults: &[VarFault], lines: &mut Lines) -> Result<(), NoMemory>
    ensures ok { OnOk result (lines.new ≡ lines.old ++ flat_map fault_lines faults.now) }
    ensures left { OnErr result (IsPrefix lines.old lines.new) }
{
    for fault in faults {
        add_fault_line(*fault, lines)?;
    }
    Ok(())
}

/// Appends a space and a text to a line, unless the text is empty.
fn add_marked(line: &mut Text, text: &Text) -> Result<(), NoMemory>
    ensures { OnOk result (line.new ≡ marked line.old text.now) }
{
    if text.is_empty() {
        return Ok(());
    }
    line.push(' ')?;
    line.add(text.as_str())
}

/// The line of a title.
pub(crate) fn title_line(alloc: Global, title: &Text) -> Result<Text, NoMemory>
    ensures { IfOk result (λ line. line ≡ title_line title.now) }
{
    let mut line = Text::new(alloc);
    line.push('=')?;
    add_marked(&mut line, title)?;
    Ok(line)
}

/// The line of a do, by its name and its label.
#[tactic(auto, using(wap_base::proofs::Plain::words))]
pub(crate) fn do_line(alloc: Global, one: &(Text, Text)) -> Result<Text, NoMemory>
    ensures { IfOk result (λ line. line ≡ do_line one.now) }
{
    let mut line = Text::new(alloc);
    line.add("* ")?;
    line.add(one.0.as_str())?;
    add_marked(&mut line, &one.1)?;
    Ok(line)
}
