//! The lines of a flow.
ghost use Rattle.std.specs.Prelude.{◌≡◌, ◌≤◌, List, ℕ, All, IfOk};
ghost use Rattle.std.specs.List.{concat};
ghost use Rattle.wap_layout.specs.declared.flow.Mode.TheVariants.{Wrapped};
ghost use Rattle.wap_layout.specs.Blanks.{visible};
ghost use Rattle.wap_layout.specs.Pieces.{pieces_of, text_of};
ghost use Rattle.wap_layout.specs.Layout.{AllFit, AreLaid};
ghost use Rattle.wap_layout.specs.Calculation.{lines_of};

use crate::Flow;
use crate::buffer::Lines;
use crate::flow::Ending;
use crate::page::Page;
use std::alloc::Global;
use wap_base::{NoMemory, Rows};

/// The lines of a flow at a width of so many columns, of which each character takes one. Only text
/// that is not wrapped, or is preformatted, may have longer lines.
#[tactic(auto, using(crate::proofs::Laying::laid_of, crate::proofs::Laying::fits_of, crate::proofs::Visible::visible_of))]
pub fn lines(alloc: Global, flow: Rows<Flow>, width: usize) -> Result<Lines, NoMemory>
    requires { 1 ≤ width }
    // Which words stand on which line, piece by piece, and that no other lines are so.
    ensures laid { IfOk result (λ lines. AreLaid width (pieces_of flow) lines) }
    ensures only { (page : List (List ℕ)) → AreLaid width (pieces_of flow) page
        → IfOk result (λ lines. lines ≡ page) }
    ensures exact { IfOk result (λ lines. lines ≡ lines_of width flow) }

    // Where all is wrapped, no line is longer than the width.
    ensures fits { All (λ piece. piece.mode ≡ Wrapped) (pieces_of flow)
        → IfOk result (λ lines. AllFit width lines) }

    // What is no blank comes out in order, none of it lost.
    ensures visible { IfOk result
        (λ lines. visible (concat lines) ≡ visible (text_of flow)) }
{
    laid_out(alloc, flow, width)
}

/// The lines of a flow, part after part.
fn laid_out(alloc: Global, flow: Rows<Flow>, width: usize) -> Result<Lines, NoMemory>
    requires { 1 ≤ width }
    ensures { IfOk result (λ lines. lines ≡ lines_of width flow) }
{
    let mut page = Page::new(alloc);
    for part in flow.into_vec() {
        page.take(alloc, part, width)?;
    }
    let mode = page.mode;
    page.end(alloc, Ending::Soft, mode, width)?;
    let Page { lines, .. } = page;
    Ok(lines)
}
