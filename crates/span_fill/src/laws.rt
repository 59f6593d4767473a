//! What the definitions of pixels mean.

ghost use Rattle.span_fill.specs.LineBoxes.{LineBoxLaws};
ghost use Rattle.span_fill.specs.RowLaws.{RowLaws};
ghost use Rattle.span_fill.specs.Strokes.{OnePixelForEachStep};
ghost use Rattle.span_fill.specs.WideStrokes.{WideStrokeLaws};

/// The law of lines: a line has exactly one pixel for each step along its major axis, and no others.
pub fn line_law()
    ensures { OnePixelForEachStep }
{}

/// The law of rows: lines have no pixels above or below the rows in which they lie, and polygons have none above or
/// below those of their lines.
pub fn row_law()
    ensures { RowLaws }
{}

/// The law of boxes around lines: a box that contains lines contains their pixels, and a box that contains polygons
/// contains the pixels inside them.
pub fn line_box_law()
    ensures { LineBoxLaws }
{}

/// The law of wide strokes: what a nib covers along a line is one span in each row. It is what the nib's columns cover
/// from the rows that the nib reaches. A nib of one pixel covers the line itself. A box that contains the line, widened
/// by the nib, contains all that the nib covers.
pub fn wide_stroke_law()
    ensures { WideStrokeLaws }
{}
