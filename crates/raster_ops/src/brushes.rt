//! The colours of brushes, at a pixel and in a row.

ghost use Rattle.std.specs.Prelude.{◌≡◌, ◌<◌, ◌≤◌, ℕ, ◌+◌, ◌%◌, length, slice_index_or};
ghost use Rattle.dib_views.specs.PictureOf.{picture_of};
ghost use Rattle.dib_views.specs.Rows.{row_colours_of};
ghost use Rattle.draw_ops.specs.Objects.{brush_value_of};
ghost use Rattle.mapping.specs.Colours.{black_colour};
ghost use Rattle.mapping.specs.declared.geometry.Colour.{Colour};
ghost use Rattle.raster_ops.specs.BrushRows.{repeated_colour, repeated_row, row_paint};
ghost use Rattle.raster_ops.specs.Gathered.{AreAt, AreKeptOutside, ArePaintsAt, HaveBytes, HavePaintBytes};
ghost use Rattle.raster_ops.specs.Paints.{brush_paint, gap_paint};

use crate::hatches::{has_cell, hatch_cells};
use crate::patterns::pattern;
use crate::rows::{BrushRow, TileRow};
use dib_views::DibView;
use draw_ops::{BackgroundMode, Brush};
use mapping::Colour;

/// The colour of a brush at the surface's pixel `(x, y)`, if it paints there.
pub fn brush_at(
    brush: &Brush<'_>,
    x: u32,
    y: u32,
    mode: BackgroundMode,
    background: Colour,
) -> Option<Colour>
    ensures { result ≡ brush_paint (brush_value_of brush.now) mode background x y }
{
    match *brush {
        Brush::Solid(colour) => Some(colour),
        Brush::Null => None,
        Brush::Hatched { hatch, colour } => {
            if has_cell(hatch, x, y) {
                Some(colour)
            } else {
                gap_colour(mode, background)
            }
        }
        Brush::Tiled(view) => {
            let row = tile_row(&view, y);
            Some(row.row.colour(x % u32::from(row.row.width)))
        }
    }
}

/// What a brush paints in row `y` of a surface.
pub fn brush_row<'a>(
    brush: &Brush<'a>,
    y: u32,
    mode: BackgroundMode,
    background: Colour,
) -> BrushRow<'a>
    ensures { (x : ℕ) → row_paint result x ≡ brush_paint (brush_value_of brush.now) mode background x y }
{
    match *brush {
        Brush::Solid(colour) => BrushRow::Solid(colour),
        Brush::Null => BrushRow::Nothing,
        Brush::Hatched { hatch, colour } => BrushRow::Hatched {
            cells: hatch_cells(hatch, y),
            colour,
            gaps: gap_colour(mode, background),
        },
        Brush::Tiled(view) => BrushRow::Tiled(tile_row(&view, y)),
    }
}

/// The row of a bitmap for the surface's row `y`. The bitmap is repeated from the surface's corner on.
fn tile_row<'a>(view: &DibView<'a>, y: u32) -> TileRow<'a>
    ensures row { row_colours_of result.row ≡ repeated_row (picture_of view.now) y }
    ensures width { result.row.width ≡ (picture_of view.now).width }
{
    TileRow {
        row: view.picture_row(y % view.height()),
    }
}

/// Writes the colours of a brush's row, from one column to before another, to `out`, each at its column. If the brush
/// doesn't paint a column, any colour may be written there. The rest of `out` is unchanged.
pub fn gather_pattern(row: &BrushRow<'_>, from: u32, to: u32, out: &mut [Colour])
    requires ordered { from ≤ to }
    requires capacity { to ≤ length out.old }
    ensures colours { ArePaintsAt (row_paint row.now) from to out.new }
    ensures parts { HavePaintBytes (row_paint row.now) from to out.new }
    ensures others { AreKeptOutside from to out.old out.new }
{
    match *row {
        BrushRow::Nothing => {}
        BrushRow::Solid(colour) => gather_solid(colour, from, to, out),
        BrushRow::Hatched {
            cells,
            colour,
            gaps,
        } => gather_cells(
            pattern(cells, colour, gaps.unwrap_or(colour)),
            from,
            to,
            out,
        ),
        BrushRow::Tiled(tile) => gather_tile(tile, from, to, out),
    }
}

/// Writes one colour, from one index to before another.
fn gather_solid(colour: Colour, from: u32, to: u32, out: &mut [Colour])
    requires ordered { from ≤ to }
    requires capacity { to ≤ length out.old }
    ensures colours { AreAt (λ x. colour) from to out.new }
    ensures parts { HaveBytes from to out.new }
    ensures others { AreKeptOutside from to out.old out.new }
{
    for x in from..to {
        out[x as usize] = colour;
    }
}

/// Writes eight repeating colours, from one index to before another.
fn gather_cells(colours: [Colour; 8], from: u32, to: u32, out: &mut [Colour])
    requires ordered { from ≤ to }
    requires capacity { to ≤ length out.old }
    ensures colours { AreAt (λ x. slice_index_or colours (x % 8) black_colour) from to out.new }
    ensures parts { HaveBytes from to out.new }
    ensures others { AreKeptOutside from to out.old out.new }
{
    for x in from..to {
        out[x as usize] = repeated(&colours, x);
    }
}

/// The colour at an index, of eight repeating ones.
#[inline]
fn repeated(colours: &[Colour; 8], x: u32) -> Colour
    ensures { result ≡ slice_index_or colours.now (x % 8) black_colour }
{
    colours[x as usize % 8]
}

/// Writes the colours of a repeated row, from one index to before another.
fn gather_tile(tile: TileRow<'_>, from: u32, to: u32, out: &mut [Colour])
    requires ordered { from ≤ to }
    requires capacity { to ≤ length out.old }
    ensures colours { AreAt (repeated_colour tile.entry.row) from to out.new }
    ensures parts { HaveBytes from to out.new }
    ensures others { AreKeptOutside from to out.old out.new }
{
    let width = u32::from(tile.row.width);
    let mut column = from % width;
    for x in from..to {
        out[x as usize] = tile.row.colour(column);
        column = next_column(column, width);
    }
}

/// The next column, which is column 0 after the last one.
#[inline]
fn next_column(column: u32, width: u32) -> u32
    requires { column < width }
    ensures column { (n : ℕ) → n % width ≡ column → result ≡ (n + 1) % width }
    ensures within { result < width }
{
    let next = column + 1;
    if next == width { 0 } else { next }
}

/// The colour of a hatch's gaps, if they are painted ([MS-WMF] 2.1.1.20).
pub fn gap_colour(mode: BackgroundMode, background: Colour) -> Option<Colour>
    ensures { result ≡ gap_paint mode background }
{
    match mode {
        BackgroundMode::Transparent => None,
        BackgroundMode::Opaque => Some(background),
    }
}
