//! Paints one part of an outline row by row: its inside or its lines.

ghost use Rattle.std.specs.Prelude.{◌≡◌, ℕ, ◌+◌, ◌<◌, ◌≤◌};
ghost use Rattle.preflight_cert.specs.Shape.{fill_rule_of};
ghost use Rattle.span_fill.specs.RowState.{SameWork};
ghost use Rattle.span_fill.specs.Spans.{AreRow};
ghost use Rattle.painting.specs.Counts.{CountsLayer, HasCapacityForLayer};
ghost use Rattle.painting.specs.Painted.{PaintsShape};
ghost use Rattle.painting.specs.Parts.{HasPart, part_has, work_of};
ghost use Rattle.painting.specs.RowPainters.{HasEight, ReadsNothing, painter_paint};

use crate::regions::whole_law;
use crate::row_painter::RowPainter;
use crate::scratch::DrawingScratch;
use crate::seen_columns::{hull, uncut_part};
use canvas::{Canvas, writing_law};
use draw_ops::FillMode;
use mapping::Nib;
use span_fill::{FillRule, RowBuf, Span};

/// A part of an outline.
#[derive(Clone, Copy, Debug, PartialEq, Eq)]
pub(crate) enum Part {
    /// The inside, by a fill rule.
    Inside(FillRule),
    /// The pixels that a nib covers as it moves along the lines.
    Lines(Nib),
}

/// Paints some rows of a part. The row buffer has begun with this part at the first of these rows. The rows and the
/// painter's columns contain everything that is visible of the part. The painter has no source.
pub(crate) fn paint_rows(
    canvas: &mut Canvas,
    scratch: &mut DrawingScratch,
    part: Part,
    span: Span,
    painter: &RowPainter<'_, '_, '_>,
)
    requires countable { HasCapacityForLayer canvas.old }
    requires begun { HasPart part span painter.now.clip.now painter.now.columns scratch.old.rows canvas.old }
    requires eight { HasEight painter.now.row_ops }
    requires alone { ReadsNothing painter.now.row_ops }
    ensures pixels { PaintsShape (painter_paint painter.now) (part_has part scratch.old.rows.lines) canvas.old canvas.new }
    ensures few { CountsLayer canvas.old canvas.new }
    ensures lines { scratch.new.rows.lines ≡ scratch.old.rows.lines }
    ensures capacity { scratch.new.rows.capacity ≡ scratch.old.rows.capacity }
{
    writing_law();
    whole_law(canvas);
    let DrawingScratch { rows, row_ops, .. } = scratch;
    let mut row_painter = *painter;
    for y in span.from..span.to {
        next_row(rows, part, painter.columns);
        let spans = rows.spans();
        row_painter.columns = uncut_part(hull(spans), y, painter.clip.cut_boxes());
        row_painter.put_row(canvas, spans, y, row_ops);
    }
}

/// Computes the spans of the next row of the part.
fn next_row(rows: &mut RowBuf, part: Part, columns: Span)
    requires work { rows.old.work ≡ work_of part }
    requires next { rows.old.next < 8192 }
    requires interval { columns.to ≤ 8192 }
    ensures spans { AreRow (λ x. part_has part rows.old.lines x rows.old.next) columns rows.new.spans }
    ensures next { rows.new.next ≡ rows.old.next + 1 }
    ensures same { SameWork rows.old rows.new }
{
    match part {
        Part::Inside(_) => rows.next_fill(columns),
        Part::Lines(_) => rows.next_stroke(columns),
    }
}

/// The fill rule of a fill mode.
pub(crate) fn rule_of(mode: FillMode) -> FillRule
    ensures { result ≡ fill_rule_of mode }
{
    match mode {
        FillMode::Alternate => FillRule::EvenOdd,
        FillMode::Winding => FillRule::NonZero,
    }
}
