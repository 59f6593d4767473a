//! Blits: each pixel of a box becomes the result of a ternary raster operation on the brush, the source and the pixel's
//! old colour.

ghost use Rattle.std.specs.Prelude.{◌≡◌, true, IfSome};
ghost use Rattle.mapping.specs.Boxes.{box_between};
ghost use Rattle.mapping.specs.PlaceOf.{surface_of};
ghost use Rattle.mapping.specs.Surface.{FitsPlace, placed_point};
ghost use Rattle.draw_ops.specs.Blits.{source_of};
ghost use Rattle.raster_ops.specs.Sources.{is_readable};
ghost use Rattle.raster_ops.specs.TernaryOps.{uses_source};
ghost use Rattle.painting.specs.Blits.{PaintsBlit, SeesAs};
ghost use Rattle.painting.specs.Counts.{CountsLayer, HasCapacityForLayer};
ghost use Rattle.painting.specs.SourceRows.{ReadsBox};

use crate::fill_style::FillStyle;
use crate::filling::fill_box;
use crate::rectangles::between;
use crate::regions::whole_law;
use crate::row_op_scratch::RowOpScratch;
use canvas::{Canvas, writing_law};
use dc_stack::{Dc, PlaneBlit};
use mapping::{Place, Point};
use raster_ops::{SourceReader, dependence_law, uses_source};

/// Paints the box of a blit with the current brush, under the current clip. A source is needed if the operation depends
/// on it.
pub(crate) fn blit(
    asked: &PlaneBlit<'_>,
    place: Place,
    dc: &Dc<'_>,
    scratch: &mut RowOpScratch,
    canvas: &mut Canvas,
)
    requires countable { HasCapacityForLayer canvas.old }
    requires near { FitsPlace (placed_point asked.now.first (surface_of place)) }
    requires far { FitsPlace (placed_point asked.now.second (surface_of place)) }
    requires readable { uses_source asked.now.operation.table ≡ true → is_readable (source_of asked.now.source) ≡ true }
    ensures pixels { PaintsBlit asked.now (surface_of place) dc.now canvas.old canvas.new }
    ensures few { CountsLayer canvas.old canvas.new }
{
    writing_law();
    whole_law(canvas);
    let (first, second) = (place.at(asked.first), place.at(asked.second));
    let reader = reader_of(asked, first, second);
    let paint = FillStyle::of_blit(asked.operation, reader, dc);
    fill_box(canvas, between(first, second), &paint, scratch);
}

/// A reader for the blit's source, which is stretched between the two corners on the surface, if the operation depends
/// on a source.
fn reader_of<'a>(asked: &PlaneBlit<'a>, first: Point, second: Point) -> Option<SourceReader<'a>>
    requires first { FitsPlace first }
    requires second { FitsPlace second }
    requires readable { uses_source asked.now.operation.table ≡ true → is_readable (source_of asked.now.source) ≡ true }
    ensures reads { IfSome result (λ reader. ReadsBox reader (box_between first second)) }
    ensures seen { SeesAs asked.now.operation.table result (source_of asked.now.source) first second }
{
    dependence_law();
    if uses_source(asked.operation) {
        SourceReader::new(&asked.source, first, second)
    } else {
        None
    }
}
