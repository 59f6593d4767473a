//! Fill styles: how a brush changes pixels, by a raster operation, in the current modes and under a clip.

ghost use Rattle.std.specs.Prelude.{◌≡◌, ◌≤◌, ℕ, None, IfSome, IsTrue, length, if◌then◌else◌};
ghost use Rattle.mapping.specs.Colours.{black_colour};
ghost use Rattle.dc_stack.specs.Drawing.{tools_of};
ghost use Rattle.draw_ops.specs.Objects.{brush_value_of};
ghost use Rattle.draw_ops.specs.declared.objects.Brush.TheVariants.{Solid};
ghost use Rattle.raster_ops.specs.BrushRows.{row_paint};
ghost use Rattle.raster_ops.specs.Readers.{row_read};
ghost use Rattle.raster_ops.specs.TernaryOps.{uses_pattern};
ghost use Rattle.painting.specs.Painted.{SamePaint};
ghost use Rattle.painting.specs.PaintsOfLayers.{IsFillStyleOf};
ghost use Rattle.painting.specs.SourceRows.{HoldsRow};

use crate::row_op::{PERIOD, RowOp, full, hatched_row_op, row_op, source_row_op};
use crate::row_op_scratch::{BLACK, MAX_SIDE, MixScratch};
use crate::row_painter::{HatchRows, RowOps, RowPainter};
use dc_stack::{Clip, Dc, Machine, Modes};
use draw_ops::{Brush, TernaryOp};
use mapping::Colour;
use object_tables::Table;
use raster_ops::{
    BrushRow, SourceReader, TernaryMixer, binary_law, brush_row, gap_colour, hatch_cells,
    ternary_of, uses_pattern,
};
use span_fill::Span;

/// A fill style: how a brush changes pixels, in the current modes and under a clip.
#[derive(Clone, Copy, Debug)]
pub(crate) struct FillStyle<'d, 'a> {
    pub(crate) brush: Brush<'a>,
    pub(crate) modes: Modes,
    pub(crate) operation: TernaryMixer,
    /// The source of a blit, if its operation depends on one.
    pub(crate) source: Option<SourceReader<'a>>,
    pub(crate) clip: &'d Clip,
}

impl<'d, 'a> FillStyle<'d, 'a> {
    ghost use Rattle.painting.specs.FillStyles.{fill_style_paint, colour_of};
    ghost use Rattle.painting.specs.RowPainters.{HasEight, ReadsAs, ReadsNothing, painter_paint};
    ghost use Rattle.painting.specs.RowsPainted.{AreRepeatedRowOps, IsRowOp, IsSameColour, IsSameRowOp};

    /// The fill style of a brush in the machine's current state.
    pub(crate) fn with<T: Table<'a>>(
        brush: Brush<'a>,
        machine: &'d Machine<'a, T>,
    ) -> FillStyle<'d, 'a>
        ensures paint { IsFillStyleOf (brush_value_of brush.entry) (tools_of machine.now.state.dc) machine.now.surface result }
        ensures modes { result.modes ≡ machine.now.state.dc.modes }
        ensures alone { result.source ≡ None }
    {
        binary_law();
        let dc = machine.dc();
        FillStyle {
            brush,
            modes: dc.modes,
            operation: TernaryMixer::new(ternary_of(dc.modes.raster_op)),
            source: None,
            clip: &dc.clip,
        }
    }

    /// The fill style of a blit, with its source if the operation depends on one. If the operation doesn't depend on
    /// the pattern, the brush is black: its colour doesn't matter.
    pub(crate) fn of_blit(
        operation: TernaryOp,
        source: Option<SourceReader<'a>>,
        dc: &'d Dc<'a>,
    ) -> FillStyle<'d, 'a>
        ensures brush { result.brush ≡ (if uses_pattern operation.table then dc.now.selected.brush else Solid black_colour) }
        ensures modes { result.modes ≡ dc.now.modes }
        ensures operation { result.operation.op ≡ operation }
        ensures source { result.source ≡ source.entry }
        ensures clip { result.clip.now ≡ dc.now.clip }
    {
        let brush = if uses_pattern(operation) {
            dc.selected.brush
        } else {
            Brush::Solid(BLACK)
        };
        FillStyle {
            brush,
            modes: dc.modes,
            operation: TernaryMixer::new(operation),
            source,
            clip: &dc.clip,
        }
    }

    /// A painter of rows in this style, within some columns. If the style treats all rows alike, it uses one row
    /// operation for all of them, or else those of a hatch if they were made.
    pub(crate) fn painter<'p>(
        &'p self,
        columns: Span,
        hatch: Option<&'p HatchRows>,
    ) -> RowPainter<'p, 'd, 'a>
        requires eight { IfSome hatch (λ rows. length rows.now.row_ops ≡ 8) }
        requires hatch { IfSome hatch (λ rows. AreRepeatedRowOps (fill_style_paint self.now) rows.now.row_ops) }
        ensures paint { SamePaint (painter_paint result) (fill_style_paint self.now) }
        ensures columns { result.columns ≡ columns }
        ensures clip { result.clip.now ≡ self.now.clip.now }
        ensures eight { HasEight result.row_ops }
        ensures alone { self.now.source ≡ None → ReadsNothing result.row_ops }
        ensures reads { ReadsAs self.now.source result.row_ops }
    {
        let row_ops = match (self.same_row_op(), hatch) {
            (Some(row_op), _) => RowOps::Same(row_op),
            (None, Some(rows)) => RowOps::Repeated(rows),
            (None, None) => RowOps::EachRow(self),
        };
        RowPainter {
            clip: self.clip,
            columns,
            row_ops,
        }
    }

    /// The row operation for every row, if there is one: the brush has a single colour and there is no source.
    fn same_row_op(&self) -> Option<RowOp<'static>>
        ensures { IfSome result (IsSameRowOp (fill_style_paint self.now)) }
    {
        match (self.brush, self.source) {
            (Brush::Solid(colour), None) => Some(full(self.operation.mix(colour, BLACK))),
            _ => None,
        }
    }

    /// The colour that every pixel becomes, if there is one, whatever the old colours are.
    pub(crate) fn same_colour(&self) -> Option<Colour>
        ensures { IfSome result (IsSameColour (fill_style_paint self.now)) }
    {
        match (self.brush, self.source) {
            (Brush::Solid(colour), None) => self.operation.mix(colour, BLACK).constant(),
            _ => None,
        }
    }

    /// The row operations of a hatch without a source, if there are enough rows to use each of them.
    pub(crate) fn hatch_rows(&self, rows: Span) -> Option<HatchRows>
        ensures eight { IfSome result (λ hatch. length hatch.row_ops ≡ 8) }
        ensures repeated { IfSome result (λ hatch. AreRepeatedRowOps (fill_style_paint self.now) hatch.row_ops) }
    {
        let (Brush::Hatched { hatch, colour }, None) = (self.brush, self.source) else {
            return None;
        };
        if rows.to.saturating_sub(rows.from) < PERIOD {
            return None;
        }
        let gaps = gap_colour(self.modes.background_mode, self.modes.background_colour);
        let mut row_ops = [RowOp::Nothing; 8];
        for y in 0..PERIOD {
            let cells = hatch_cells(hatch, y);
            row_ops[y as usize] = hatched_row_op(cells, colour, gaps, self.operation);
        }
        Some(HatchRows { row_ops })
    }

    /// The row operation for some columns of a row. The source colours of these columns must have been gathered.
    pub(crate) fn new_row<'r>(
        &self,
        y: u32,
        columns: Span,
        sources: &'r [Colour; MAX_SIDE],
        scratch: &'r mut MixScratch,
    ) -> RowOp<'r>
        requires order { columns.from ≤ columns.to }
        requires end { columns.to ≤ 8192 }
        requires seen { IfSome self.now.source (λ reader. HoldsRow reader columns (row_read reader y) sources.now) }
        ensures { IsRowOp (fill_style_paint self.now) columns y result }
    {
        let row = self.brush_row(y);
        match self.source {
            None => row_op(&row, self.operation, columns, scratch),
            Some(_) => source_row_op(&row, self.operation, columns, sources, scratch),
        }
    }

    /// What the brush has in a row.
    fn brush_row(&self, y: u32) -> BrushRow<'a>
        ensures { (x : ℕ) → row_paint result x ≡ colour_of self.now x y }
    {
        let mode = self.modes.background_mode;
        brush_row(&self.brush, y, mode, self.modes.background_colour)
    }
}
