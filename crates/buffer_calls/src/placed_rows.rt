//! Rows of a surface in a buffer.

ghost use Rattle.std.specs.Prelude.{◌≡◌, ◌≤◌, ◌^◌, true};
ghost use Rattle.player.specs.Rows.{layout_size};
ghost use Rattle.buffer_calls.specs.Plays.{are_placed};

use crate::fitting::is_bound;
use player::RowLayout;
use proportions::Sides;

/// Some rows of a surface of this size, and where they lie in a buffer.
#[derive(Clone, Copy, Debug, PartialEq, Eq)]
pub struct PlacedRows {
    pub surface: Sides,
    pub layout: RowLayout,
}

/// Whether a surface may have this size, and the rows are rows of it, at least one, that don't overlap in a buffer.
pub(crate) fn are_placed(rows: PlacedRows) -> bool
    ensures { result ≡ are_placed rows }
{
    let PlacedRows { surface, layout } = rows;
    is_bound(surface)
        && 1 <= layout.count
        && u64::from(layout.first) + u64::from(layout.count) <= u64::from(surface.height)
        && 3 * u64::from(surface.width) <= u64::from(layout.stride)
}

/// The number of bytes from the first one of the first row to the last one of the last row.
pub(crate) fn layout_size(rows: PlacedRows) -> usize
    requires { are_placed rows ≡ true }
    ensures { result ≡ layout_size rows.layout rows.surface.width }
{
    let gaps = (rows.layout.count - 1) as usize;
    gaps * rows.layout.stride as usize + 3 * rows.surface.width as usize
}
