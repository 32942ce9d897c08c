//! Control characters are shown as dots.
ghost use Rattle.std.specs.Prelude.{◌≡◌, ◌≤◌, true, map, length, IfOk};
ghost use Rattle.std.specs.List.{count_by};
ghost use Rattle.wap_base.specs.Controls.{shown_text};
ghost use Rattle.wap_session.specs.inside.Dots.{may_be_control};

use std::alloc::Global;
use wap_base::{NoMemory, shown_text};
use wap_layout::buffer::Lines;

/// Whether a byte may belong to a control character.
fn may_be_control(byte: u8) -> bool
    ensures { result ≡ may_be_control byte }
{
    byte < 32 || byte == 127 || byte == 0xC2
}

/// How many bytes of a block may belong to control characters. A count that is a byte lets many be
/// looked at in one step.
fn count_in_block(block: &[u8]) -> u8
    requires { length block.now ≤ 255 }
    ensures { result ≡ count_by may_be_control block.now }
{
    let mut count = 0;
    for byte in block {
        count += u8::from(may_be_control(*byte));
    }
    count
}

/// How many of the bytes may belong to control characters, block by block.
fn count_control(bytes: &[u8]) -> usize
    ensures { result ≡ count_by may_be_control bytes.now }
{
    let mut count = 0;
    let mut rest = bytes;
    while 128 < rest.len() {
        let (block, after) = rest.split_at(128);
        count += usize::from(count_in_block(block));
        rest = after;
    }
    count + usize::from(count_in_block(rest))
}

/// Whether the lines are seen to be shown as they are: as they are written, no byte but the line
/// feed after each may belong to a control character.
#[tactic(auto, using(crate::proofs::Dotting::plain))]
fn are_plain(lines: &Lines) -> bool
    ensures { result ≡ true → map shown_text lines.now ≡ lines.now }
{
    count_control(lines.as_written()) == lines.len()
}

/// Lines, each as it is shown.
fn each_shown(alloc: Global, lines: &Lines) -> Result<Lines, NoMemory>
    ensures { IfOk result (λ shown. shown ≡ map shown_text lines.now) }
{
    let mut shown = Lines::new(alloc);
    for line in lines.each() {
        shown.add(shown_text(alloc, line)?.as_str())?;
    }
    Ok(shown)
}

/// Lines as they are shown; where they are seen to be plain, they are kept.
pub fn shown_lines(alloc: Global, lines: Lines) -> Result<Lines, NoMemory>
    ensures { IfOk result (λ shown. shown ≡ map shown_text lines) }
{
    if are_plain(&lines) {
        return Ok(lines);
    }
    each_shown(alloc, &lines)
}
