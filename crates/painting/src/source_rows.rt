//! The source colours of a blit, one row of its box at a time.

ghost use Rattle.std.specs.Prelude.{◌≡◌, ◌<◌, ◌≤◌, ◌≤ℤ◌, ◌+ℤ◌, pos, IfSome, Some, true};
ghost use Rattle.dib_views.specs.PictureOf.{picture_of};
ghost use Rattle.raster_ops.specs.Readers.{row_read};
ghost use Rattle.painting.specs.SourceRows.{HoldsRow, ReadsRow};

use crate::row_op_scratch::MAX_SIDE;
use mapping::Colour;
use raster_ops::SourceReader;
use span_fill::Span;

/// What was gathered last.
#[derive(Clone, Copy, Debug)]
pub(crate) struct Gathered {
    /// The row of the bitmap.
    row: u32,
    /// The columns of the surface.
    columns: Span,
}

/// Gathers the source colours of these columns, each at its column, if there is a source, and returns what was
/// gathered. Does nothing if the same colours were gathered last.
pub(crate) fn read_row(
    source: &Option<SourceReader<'_>>,
    columns: Span,
    y: u32,
    last: Option<Gathered>,
    sources: &mut [Colour; MAX_SIDE],
) -> Option<Gathered>
    requires order { columns.from ≤ columns.to }
    requires end { columns.to ≤ 8192 }
    requires reads { IfSome source.now (λ reader. ReadsRow reader columns y) }
    requires last { IfSome last (λ it. IfSome source.now (λ reader. HoldsRow reader it.columns it.row sources.old)) }
    ensures gathered { IfSome result (λ it. IfSome source.now (λ reader. HoldsRow reader it.columns it.row sources.new)) }
    ensures read { IfSome source.now (λ reader. HoldsRow reader columns (row_read reader y) sources.new) }
{
    let Some(reader) = source else {
        return None;
    };
    let row = reader.row_at(y);
    if !is_gathered(last, row, columns) {
        reader.gather(row, columns.from, columns.to, sources);
    }
    Some(Gathered { row, columns })
}

/// Whether these colours were gathered last.
fn is_gathered(last: Option<Gathered>, row: u32, columns: Span) -> bool
    ensures { result ≡ true → last ≡ Some (record { row = row; columns = columns }) }
{
    match last {
        Some(it) => it.row == row && it.columns == columns,
        None => false,
    }
}
