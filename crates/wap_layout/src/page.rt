//! Pieces of a flow, each laid out as its mode says.
ghost use Rattle.std.specs.Prelude.{◌≡◌, ◌≤◌, ◌++◌, OnOk};
ghost use Rattle.std.specs.List.{flat_map, slice_split};
ghost use Rattle.std.specs.Str.{chars};
ghost use Rattle.wap_layout.specs.Blanks.{is_line_feed};
ghost use Rattle.wap_layout.specs.Pieces.{kept, ended};
ghost use Rattle.wap_layout.specs.Layout.{closed};
ghost use Rattle.wap_layout.specs.Calculation.{laid, piece_lines};
ghost use Rattle.wap_layout.specs.inside.Endings.{is_hard};

use crate::buffer::Lines;
use crate::fill::add_filled;
use crate::flow::Ending;
use crate::words::{add_unless_empty, cut_at_feed};
use crate::{Flow, Mode};
use std::alloc::Global;
use wap_base::{NoMemory, Text};

/// Adds the lines of a text, or none where nothing is to be seen. What is not wrapped stands on a
/// line that is wide enough for all of it.
fn add_laid(
    alloc: Global,
    lines: &mut Lines,
    mode: Mode,
    text: &str,
    width: usize,
) -> Result<(), NoMemory>
    requires { 1 ≤ width }
    ensures { OnOk result (lines.new ≡ lines.old ++ laid width mode (chars text.now)) }
{
    match mode {
        Mode::Wrapped => add_filled(alloc, lines, text, width),
        Mode::Unwrapped => add_filled(alloc, lines, text, text.len() + 1),
        Mode::Preformatted => add_unless_empty(lines, text),
    }
}

/// Adds the lines of a piece, which are one empty line where it has none and a hard break ends it.
fn add_piece(
    alloc: Global,
    lines: &mut Lines,
    mode: Mode,
    text: &str,
    ending: Ending,
    width: usize,
) -> Result<(), NoMemory>
    requires { 1 ≤ width }
    ensures { OnOk result
        (lines.new ≡ lines.old ++ closed (is_hard ending) (laid width mode (chars text.now))) }
{
    let before = lines.len();
    add_laid(alloc, lines, mode, text, width)?;
    if matches!(ending, Ending::Hard) && lines.len() == before {
        lines.add(Text::new(alloc).as_str())?;
    }
    Ok(())
}

/// Adds the lines of a preformatted text, in which a line feed is a hard break.
fn add_kept(
    alloc: Global,
    lines: &mut Lines,
    text: &str,
    ending: Ending,
    width: usize,
) -> Result<(), NoMemory>
    requires { 1 ≤ width }
    ensures { OnOk result (lines.new ≡ lines.old ++ flat_map (piece_lines width)
        (kept (slice_split is_line_feed (chars text.now)) (is_hard ending))) }
{
    let mut rest = text;
    while let Some((line, after)) = cut_at_feed(rest) {
        add_piece(alloc, lines, Mode::Preformatted, line, Ending::Hard, width)?;
        rest = after;
    }
    add_piece(alloc, lines, Mode::Preformatted, rest, ending, width)
}

/// Adds the lines of a text that ends.
fn add_ended(
    alloc: Global,
    lines: &mut Lines,
    mode: Mode,
    text: &str,
    ending: Ending,
    width: usize,
) -> Result<(), NoMemory>
    requires { 1 ≤ width }
    ensures { OnOk result (lines.new ≡ lines.old ++ flat_map (piece_lines width)
        (ended mode (chars text.now) (is_hard ending))) }
{
    match mode {
        Mode::Preformatted => add_kept(alloc, lines, text, ending, width),
        Mode::Wrapped | Mode::Unwrapped => add_piece(alloc, lines, mode, text, ending, width),
    }
}

/// The lines so far, and the text after them, which has not ended yet.
#[derive(Drop)]
pub struct Page {
    /// The lines that have ended.
    pub lines: Lines,
    pub mode: Mode,
    /// What stands after them.
    pub text: Text,
}

impl Page {
    ghost use Rattle.std.specs.Prelude.{◌≡◌, ◌≤◌, ◌∷◌, ◌++◌, [], List, OnOk};
    ghost use Rattle.std.specs.List.{flat_map, slice_split};
    ghost use Rattle.wap_layout.specs.declared.flow.Flow.{Flow};
    ghost use Rattle.wap_layout.specs.declared.flow.Mode.TheVariants.{Wrapped};
    ghost use Rattle.wap_layout.specs.Pieces.{ended};
    ghost use Rattle.wap_layout.specs.Calculation.{piece_lines};
    ghost use Rattle.wap_layout.specs.inside.Behind.{lines_behind};
    ghost use Rattle.wap_layout.specs.inside.Endings.{is_hard};

    /// An empty page, whose text is wrapped at first.
    pub fn new(alloc: Global) -> Page
        ensures lines { result.lines ≡ [] }
        ensures mode { result.mode ≡ Wrapped }
        ensures text { result.text ≡ [] }
    {
        Page {
            lines: Lines::new(alloc),
            mode: Mode::Wrapped,
            text: Text::new(alloc),
        }
    }

    /// Ends the text.
    pub fn end(
        &mut self,
        alloc: Global,
        ending: Ending,
        mode: Mode,
        width: usize,
    ) -> Result<(), NoMemory>
        requires { 1 ≤ width }
        ensures lines { OnOk result (self.new.lines ≡ self.old.lines
            ++ flat_map (piece_lines width) (ended self.old.mode self.old.text (is_hard ending))) }
        ensures mode { OnOk result (self.new.mode ≡ mode) }
        ensures text { OnOk result (self.new.text ≡ []) }
    {
        add_ended(
            alloc,
            &mut self.lines,
            self.mode,
            self.text.as_str(),
            ending,
            width,
        )?;
        self.text = Text::new(alloc);
        self.mode = mode;
        Ok(())
    }

    /// Goes on with a text.
    fn add(&mut self, text: Text) -> Result<(), NoMemory>
        ensures lines { self.new.lines ≡ self.old.lines }
        ensures mode { self.new.mode ≡ self.old.mode }
        ensures text { OnOk result (self.new.text ≡ self.old.text ++ text) }
    {
        if self.text.is_empty() {
            self.text = text;
            return Ok(());
        }
        self.text.add(text.as_str())
    }

    /// Takes a part of the flow.
    pub fn take(&mut self, alloc: Global, part: Flow, width: usize) -> Result<(), NoMemory>
        requires { 1 ≤ width }
        ensures { OnOk result ((flow : List Flow)
            → lines_behind width self.new.lines self.new.mode self.new.text flow
            ≡ lines_behind width self.old.lines self.old.mode self.old.text (part ∷ flow)) }
    {
        let mode = self.mode;
        match part {
            Flow::Words(text) => self.add(text),
            Flow::Hard => self.end(alloc, Ending::Hard, mode, width),
            Flow::Soft => self.end(alloc, Ending::Soft, mode, width),
            Flow::Wrap => self.end(alloc, Ending::Soft, Mode::Wrapped, width),
            Flow::NoWrap => self.end(alloc, Ending::Soft, Mode::Unwrapped, width),
            Flow::Pre => self.end(alloc, Ending::Soft, Mode::Preformatted, width),
        }
    }
}
