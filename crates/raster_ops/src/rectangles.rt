//! The position of a blit's source rectangle in its bitmap.

ghost use Rattle.std.specs.Prelude.{◌≡◌, ◌^◌, ℤ, pos, ◌-ℤ◌, unsigned_abs};
ghost use Rattle.draw_ops.specs.Blits.{bottom, source_of, source_value_of, top};
ghost use Rattle.mapping.specs.Limits.{IsWithin};
ghost use Rattle.raster_ops.specs.Readers.{is_inside_from};
ghost use Rattle.raster_ops.specs.Sources.{first_row, is_axis_inside, is_readable, least_end};

use draw_ops::{BlitSource, SourceRectangle};

/// Whether there is a bitmap, and its rectangle is not empty and lies inside.
pub fn is_readable(source: &BlitSource<'_>) -> bool
    ensures { result ≡ is_readable (source_of source.now) }
{
    match *source {
        BlitSource::Missing => false,
        BlitSource::FromTop(rectangle) => is_inside(&rectangle, row_from_top(&rectangle)),
        BlitSource::FromBottom(rectangle) => is_inside(&rectangle, row_from_bottom(&rectangle)),
    }
}

/// Whether a rectangle with this first row is not empty and lies inside its bitmap.
fn is_inside(rectangle: &SourceRectangle<'_>, row: i64) -> bool
    ensures { result ≡ is_inside_from row rectangle.now }
{
    let column = least_end(rectangle.corner.x, rectangle.extent.x);
    is_axis_inside(column, rectangle.extent.x, rectangle.picture.width())
        && is_axis_inside(row, rectangle.extent.y, rectangle.picture.height())
}

/// The first row of a rectangle whose rows are counted from the top of the bitmap.
pub(crate) fn row_from_top(rectangle: &SourceRectangle<'_>) -> i64
    ensures { result ≡ first_row (source_value_of top rectangle.now) }
{
    least_end(rectangle.corner.y, rectangle.extent.y)
}

/// The first row of a rectangle whose rows are counted from the bottom of the bitmap.
pub(crate) fn row_from_bottom(rectangle: &SourceRectangle<'_>) -> i64
    ensures { result ≡ first_row (source_value_of bottom rectangle.now) }
{
    let last = least_end(rectangle.corner.y, rectangle.extent.y);
    mirrored_row(rectangle.picture.height(), last, rectangle.extent.y)
}

/// The first row, counted from the top, of an extent of rows that is counted from the bottom.
fn mirrored_row(height: u32, last: i64, extent: i32) -> i64
    requires { IsWithin (2 ^ 33) last }
    ensures { result ≡ pos height -ℤ last -ℤ pos (unsigned_abs extent) }
{
    i64::from(height) - last - i64::from(extent.unsigned_abs())
}

/// The smaller end of an extent that starts at a number; a negative extent goes downwards.
pub(crate) fn least_end(start: i32, extent: i32) -> i64
    ensures end { result ≡ least_end start extent }
    ensures near { IsWithin (2 ^ 33) result }
{
    let start = i64::from(start);
    start.min(start + i64::from(extent))
}

/// Whether an extent that starts at a column or row isn't 0, and lies inside a bitmap of this width or height.
pub(crate) fn is_axis_inside(first: i64, extent: i32, side: u32) -> bool
    ensures { result ≡ is_axis_inside first extent side }
{
    let count = extent.unsigned_abs();
    0 < count && 0 <= first && first <= i64::from(side) - i64::from(count)
}
