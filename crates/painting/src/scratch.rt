//! The memory for drawings. All of it is allocated before the first drawing.

ghost use Rattle.std.specs.Prelude.{◌≤◌, ◌⊎◌, IfOk};
ghost use Rattle.dc_stack.specs.Drawing.{edge_limit};

use crate::row_op_scratch::RowOpScratch;
use crate::visited_mask::VisitedMask;
use span_fill::{OutOfMemory, RowBuf, StrokeMask};
use std::alloc::Global;

/// The most lines of one drawing.
const MAX_LINES: u32 = 1_048_576;

/// So many lines of one pixel may take long by rows of spans, and a visited mask can't be used where boxes are cut out.
const MANY_LINES: u32 = 16;

/// The memory for drawings.
///
/// # Guarantees
///
/// - Only the calls that create it allocate memory.
#[derive(Drop)]
pub struct DrawingScratch {
    /// The row buffer, which limits how many lines a drawing may have.
    pub rows: RowBuf,
    /// A visited mask for thin strokes, if drawings can have more than one line.
    pub(crate) visited: Option<VisitedMask>,
    /// A mask for strokes of many lines, or by wide pens.
    pub(crate) mask: Option<StrokeMask>,
    /// Scratch buffers for one row of pixels.
    pub(crate) row_ops: RowOpScratch,
}

impl DrawingScratch {
    /// Allocates memory for drawings of up to this number of lines. For the largest drawings that is 376 MiB. Returns
    /// `OutOfMemory` if an allocation fails. Strokes by wide pens can be painted without the mask, but then many lines
    /// take longer.
    pub fn for_lines(
        alloc: Global,
        lines: u32,
        has_wide_pens: bool,
    ) -> Result<DrawingScratch, OutOfMemory>
        ensures capacity { IfOk result (λ scratch. (edge_limit ≤ scratch.rows.capacity) ⊎ (lines ≤ scratch.rows.capacity)) }
    {
        let row_ops = RowOpScratch::new(alloc)?;
        let rows = rows_for(alloc, lines)?;
        let visited = visited_for(alloc, lines)?;
        let mask = mask_for(alloc, lines, has_wide_pens)?;
        Ok(DrawingScratch {
            rows,
            visited,
            mask,
            row_ops,
        })
    }
}

/// A row buffer for this number of lines.
fn rows_for(alloc: Global, lines: u32) -> Result<RowBuf, OutOfMemory>
    ensures capacity { IfOk result (λ rows. (edge_limit ≤ rows.capacity) ⊎ (lines ≤ rows.capacity)) }
{
    let mut rows = RowBuf::new(alloc);
    rows.reserve(MAX_LINES.min(lines) as usize)?;
    Ok(rows)
}

/// A visited mask, if drawings can have more than one line: a lone line needs none.
fn visited_for(alloc: Global, lines: u32) -> Result<Option<VisitedMask>, OutOfMemory> {
    if lines < 2 {
        return Ok(None);
    }
    let visited = VisitedMask::new(alloc)?;
    Ok(Some(visited))
}

/// A mask, if drawings can have many lines, or a pen is wide and they can have more than one.
fn mask_for(
    alloc: Global,
    lines: u32,
    has_wide_pens: bool,
) -> Result<Option<StrokeMask>, OutOfMemory> {
    if lines < MANY_LINES && (lines < 2 || !has_wide_pens) {
        return Ok(None);
    }
    let mask = StrokeMask::new(alloc)?;
    Ok(Some(mask))
}
