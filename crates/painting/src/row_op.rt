//! Row operations: how a brush changes the pixels of one row by a raster operation.

ghost use Rattle.std.specs.Prelude.{◌≡◌, ◌≤◌, ◌<◌, ℕ, true, is_some, length, slice_index_or};
ghost use Rattle.mapping.specs.Colours.{black_colour};
ghost use Rattle.mapping.specs.Mixes.{mixed_by};
ghost use Rattle.mapping.specs.Pixels.{is_cell};
ghost use Rattle.mapping.specs.declared.geometry.Colour.{Colour};
ghost use Rattle.painting.specs.RowOps.{inked, is_inked, mixed_at};
ghost use Rattle.painting.specs.RowJoins.{AreMade, IsJoined, colours_at, joined_patterns, joined_row, mixed_in, row_has};
ghost use Rattle.painting.specs.Strips.{mixed_cells};
ghost use Rattle.raster_ops.specs.BrushRows.{row_paint};
ghost use Rattle.raster_ops.specs.Bytes.{HasBytes};
ghost use Rattle.raster_ops.specs.TernaryOps.{ternary_colour};
ghost use Rattle.raster_ops.specs.declared.rows.BrushRow.TheVariants.{Hatched};

use crate::row_op_scratch::{BLACK, MAX_SIDE, MixScratch};
use canvas::Splat;
use draw_ops::TernaryOp;
use mapping::{Colour, Mix};
use raster_ops::{BrushRow, TernaryMixer, copy_law, gather_pattern, pattern};
use span_fill::Span;

/// The rows after which a hatch repeats.
pub(crate) const PERIOD: u32 = 8;

/// The table of the operation that copies the pattern, whatever the old colour.
const PATCOPY: u8 = 0xf0;

/// The table of the operation that copies the source, whatever the pattern and the old colour.
const SRCCOPY: u8 = 0xcc;

/// What happens to the pixels of a row, by column.
#[derive(Clone, Copy, Debug)]
pub(crate) enum RowOp<'r> {
    /// No pixel is written.
    Nothing,
    /// Every pixel becomes this colour.
    Full(Splat),
    /// Every pixel becomes the stripes' colour at its column modulo 8.
    Pattern([Colour; 8]),
    /// Every pixel is mixed.
    Mixed(Mix),
    /// A pixel whose bit, at its column modulo 8, is set in `cells` is mixed by `mix`. Any other is mixed by `gaps`, or
    /// isn't written if there is none.
    Cells {
        cells: u8,
        mix: Mix,
        gaps: Option<Mix>,
    },
    /// Every pixel becomes the colour at its column.
    Row(&'r [Colour; MAX_SIDE]),
    /// Every pixel is mixed by the mix at its column, made of the bits to keep and the bits to flip.
    MixRow {
        keeps: &'r [Colour; MAX_SIDE],
        flips: &'r [Colour; MAX_SIDE],
    },
    /// A pixel whose bit, at its column modulo 8, is set in `cells` is mixed by the mix at its column. No other pixel
    /// is written.
    MixCells {
        cells: u8,
        keeps: &'r [Colour; MAX_SIDE],
        flips: &'r [Colour; MAX_SIDE],
    },
}

/// The row operation of a brush for some columns of a row, without a source.
pub(crate) fn row_op<'r>(
    row: &BrushRow<'_>,
    operation: TernaryMixer,
    columns: Span,
    scratch: &'r mut MixScratch,
) -> RowOp<'r>
    requires order { columns.from ≤ columns.to }
    requires end { columns.to ≤ 8192 }
    ensures test { (x : ℕ) → is_inked result x ≡ is_some (row_paint row.now x) }
    ensures row_op { AreMade columns (is_inked result) (inked result) (joined_row operation.op (λ x. black_colour) row.now) }
{
    match *row {
        BrushRow::Nothing => RowOp::Nothing,
        BrushRow::Solid(colour) => full(operation.mix(colour, BLACK)),
        BrushRow::Hatched {
            cells,
            colour,
            gaps,
        } => hatched_row_op(cells, colour, gaps, operation),
        BrushRow::Tiled(_) => tile_row_op(row, operation, columns, scratch),
    }
}

/// The row operation of a hatch for one row, without a source.
pub(crate) fn hatched_row_op(
    cells: u8,
    colour: Colour,
    gaps: Option<Colour>,
    operation: TernaryMixer,
) -> RowOp<'static>
    ensures { IsJoined operation.op (Hatched cells colour gaps) result }
{
    let mix = operation.mix(colour, BLACK);
    match gaps {
        None => cells_only(cells, mix),
        Some(gaps) => two(cells, mix, operation.mix(gaps, BLACK)),
    }
}

/// The row operation of a repeated bitmap for these columns. If the raster operation copies the pattern, it just writes
/// the bitmap's colours.
fn tile_row_op<'r>(
    row: &BrushRow<'_>,
    operation: TernaryMixer,
    columns: Span,
    scratch: &'r mut MixScratch,
) -> RowOp<'r>
    requires order { columns.from ≤ columns.to }
    requires end { columns.to ≤ 8192 }
    requires tiled { (x : ℕ) → is_some (row_paint row.now x) ≡ true }
    ensures test { (x : ℕ) → is_inked result x ≡ true }
    ensures row_op { AreMade columns (λ x. true) (inked result) (joined_row operation.op (λ x. black_colour) row.now) }
{
    let patterns = &mut *scratch.patterns;
    gather_pattern(row, columns.from, columns.to, patterns);
    if copies_pattern(operation.op) {
        return RowOp::Row(patterns);
    }
    let (keeps, flips) = (&mut *scratch.keeps, &mut *scratch.flips);
    mix_patterns(operation, columns, patterns, keeps, flips);
    RowOp::MixRow { keeps, flips }
}

/// The row operation of a brush and a source for some columns of a row. If the raster operation copies the source and
/// the brush leaves no pixel out, it just writes the source's colours.
pub(crate) fn source_row_op<'r>(
    row: &BrushRow<'_>,
    operation: TernaryMixer,
    columns: Span,
    sources: &'r [Colour; MAX_SIDE],
    scratch: &'r mut MixScratch,
) -> RowOp<'r>
    requires order { columns.from ≤ columns.to }
    requires end { columns.to ≤ 8192 }
    requires parts { (x : ℕ) (d : Colour) → columns.from ≤ x → x < columns.to → HasBytes (slice_index_or sources.now x d) }
    ensures test { (x : ℕ) → is_inked result x ≡ is_some (row_paint row.now x) }
    ensures row_op { AreMade columns (is_inked result) (inked result) (joined_row operation.op (colours_at sources.entry.now) row.now) }
{
    copy_law();
    if let (BrushRow::Solid(_), SRCCOPY) = (*row, operation.op.table) {
        return RowOp::Row(sources);
    }
    gather_mixes(row, operation, columns, sources, scratch);
    mix_given(row, scratch)
}

/// A row operation that mixes the columns for which the brush has a colour.
fn mix_given<'r>(row: &BrushRow<'_>, scratch: &'r MixScratch) -> RowOp<'r>
    ensures test { (x : ℕ) → is_inked result x ≡ is_some (row_paint row.now x) }
    ensures row_op { (x : ℕ) (old : Colour) → is_inked result x ≡ true → inked result x old ≡ mixed_in scratch.entry.now x old }
{
    let (keeps, flips) = (&*scratch.keeps, &*scratch.flips);
    match *row {
        BrushRow::Nothing => RowOp::Nothing,
        BrushRow::Solid(_) => RowOp::MixRow { keeps, flips },
        BrushRow::Hatched {
            cells,
            gaps: None,
            ..
        } => RowOp::MixCells {
            cells,
            keeps,
            flips,
        },
        BrushRow::Hatched { gaps: Some(_), .. } => RowOp::MixRow { keeps, flips },
        BrushRow::Tiled(_) => RowOp::MixRow { keeps, flips },
    }
}

/// Computes, for each of these columns, the mix of the brush's colour and the source's colour.
fn gather_mixes(
    row: &BrushRow<'_>,
    operation: TernaryMixer,
    columns: Span,
    sources: &[Colour; MAX_SIDE],
    scratch: &mut MixScratch,
)
    requires order { columns.from ≤ columns.to }
    requires end { columns.to ≤ 8192 }
    ensures { AreMade columns (row_has row.now) (mixed_in scratch.new) (joined_row operation.op (colours_at sources.now) row.now) }
{
    let (from, to) = (columns.from, columns.to);
    let patterns = &mut *scratch.patterns;
    let (keeps, flips) = (&mut *scratch.keeps, &mut *scratch.flips);
    gather_pattern(row, from, to, patterns);
    operation.gather(patterns, sources, from, to, keeps, flips);
}

/// Whether an operation always gives every pixel the pattern's colour.
fn copies_pattern(operation: TernaryOp) -> bool
    ensures { result ≡ true → (p s old : Colour) → HasBytes p → ternary_colour operation.table p s old ≡ p }
{
    copy_law();
    operation.table == PATCOPY
}

/// Computes, for each of these columns, the mix of the pattern's colour.
fn mix_patterns(
    operation: TernaryMixer,
    columns: Span,
    patterns: &[Colour; MAX_SIDE],
    keeps: &mut [Colour; MAX_SIDE],
    flips: &mut [Colour; MAX_SIDE],
)
    requires order { columns.from ≤ columns.to }
    requires end { columns.to ≤ 8192 }
    ensures { AreMade columns (λ x. true) (mixed_at keeps.new flips.new) (joined_patterns operation.op patterns.now) }
{
    for x in columns.from as usize..columns.to as usize {
        let mix = operation.mix(patterns[x], BLACK);
        keeps[x] = mix.keep;
        flips[x] = mix.flip;
    }
}

/// A row operation that mixes every pixel. If the mix gives one colour for all old colours, it writes that colour.
pub(crate) fn full(mix: Mix) -> RowOp<'static>
    ensures test { (x : ℕ) → is_inked result x ≡ true }
    ensures row_op { (x : ℕ) (old : Colour) → inked result x old ≡ mixed_by mix old }
{
    match mix.constant() {
        Some(colour) => RowOp::Full(Splat::new(colour)),
        None => RowOp::Mixed(mix),
    }
}

/// A row operation that mixes only the cells.
fn cells_only(cells: u8, mix: Mix) -> RowOp<'static>
    ensures test { (x : ℕ) → is_inked result x ≡ is_cell cells x }
    ensures row_op { (x : ℕ) (old : Colour) → is_inked result x ≡ true → inked result x old ≡ mixed_by mix old }
{
    match cells {
        0 => RowOp::Nothing,
        0xff => full(mix),
        _ => RowOp::Cells {
            cells,
            mix,
            gaps: None,
        },
    }
}

/// A row operation that mixes the cells by one mix and the gaps by another. If each mix gives one colour for all old
/// colours, it writes a pattern.
fn two(cells: u8, mix: Mix, gaps: Mix) -> RowOp<'static>
    ensures test { (x : ℕ) → is_inked result x ≡ true }
    ensures row_op { (x : ℕ) (old : Colour) → inked result x old ≡ mixed_cells cells mix gaps x old }
{
    if let (Some(colour), Some(gap)) = (mix.constant(), gaps.constant()) {
        return RowOp::Pattern(pattern(cells, colour, gap));
    }
    RowOp::Cells {
        cells,
        mix,
        gaps: Some(gaps),
    }
}
