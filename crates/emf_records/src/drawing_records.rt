//! Drawing records ([MS-EMF] 2.3.5).

ghost use Rattle.std.specs.Prelude.{◌≡◌, ◌≤◌, length};
ghost use Rattle.std.specs.Option.{option_map};
ghost use Rattle.draw_ops.specs.RecordOf.{decoded_of};
ghost use Rattle.draw_ops.specs.Results.{result_map};
ghost use Rattle.point_views.specs.Points.{points_of};
ghost use Rattle.point_views.specs.Polys.{lists_of};
ghost use Rattle.emf_records.specs.DrawingRecords.{line_to_record, lists_at, point_list, point_lists, poly_polygon_record, poly_polyline_record};
ghost use Rattle.emf_records.specs.DrawingRecords.{polygon_record, polyline_record, polyline_to_record, rectangle_record, set_pixel_v};

use draw_ops::{
    Decoded, Op, RecordFault, RectangleEdges, box_at, counts_at, points_at, rgb_at, xy_at,
};
use point_views::{NumberWidth, Points, Polys, u32_at};

/// EMR_LINETO: Point.
pub(crate) fn line_to(bytes: &[u8]) -> Result<Decoded<'_>, RecordFault>
    ensures value { line_to_record bytes.entry.now ≡ result_map decoded_of result }
{
    if bytes.len() < 16 {
        return Err(RecordFault::BadParams);
    }
    Ok(Decoded::unnoted(Op::LineTo(xy_at(bytes, 8))))
}

/// EMR_POLYGON, EMR_POLYGON16: Bounds, Count, aPoints.
pub(crate) fn polygon(width: NumberWidth, bytes: &[u8]) -> Result<Decoded<'_>, RecordFault>
    ensures value { polygon_record width bytes.entry.now ≡ result_map decoded_of result }
{
    let points = points(width, bytes)?;
    Ok(Decoded::unnoted(Op::Polygon(Polys::one(points))))
}

/// EMR_POLYLINE, EMR_POLYLINE16: Bounds, Count, aPoints.
pub(crate) fn polyline(width: NumberWidth, bytes: &[u8]) -> Result<Decoded<'_>, RecordFault>
    ensures value { polyline_record width bytes.entry.now ≡ result_map decoded_of result }
{
    let points = points(width, bytes)?;
    Ok(Decoded::unnoted(Op::Polyline(Polys::one(points))))
}

/// EMR_POLYLINETO, EMR_POLYLINETO16: Bounds, Count, aPoints.
pub(crate) fn polyline_to(width: NumberWidth, bytes: &[u8]) -> Result<Decoded<'_>, RecordFault>
    ensures value { polyline_to_record width bytes.entry.now ≡ result_map decoded_of result }
{
    let points = points(width, bytes)?;
    Ok(Decoded::unnoted(Op::PolylineTo(points)))
}

/// A count of points after the bounds, followed by the points.
fn points(width: NumberWidth, bytes: &[u8]) -> Result<Points<'_>, RecordFault>
    ensures value { point_list width bytes.entry.now ≡ result_map points_of result }
{
    if bytes.len() < 28 {
        return Err(RecordFault::BadParams);
    }
    match points_at(width, u32_at(bytes, 24) as usize, bytes, 28) {
        Some(points) => Ok(points),
        None => Err(RecordFault::BadParams),
    }
}

/// EMR_POLYPOLYGON, EMR_POLYPOLYGON16: Bounds, NumberOfPolygons, Count, PolygonPointCount, aPoints.
pub(crate) fn poly_polygon(width: NumberWidth, bytes: &[u8]) -> Result<Decoded<'_>, RecordFault>
    ensures value { poly_polygon_record width bytes.entry.now ≡ result_map decoded_of result }
{
    let lists = point_lists(width, bytes)?;
    Ok(Decoded::unnoted(Op::Polygon(lists)))
}

/// EMR_POLYPOLYLINE, EMR_POLYPOLYLINE16: Bounds, NumberOfPolylines, Count, aPolylinePointCount, aPoints.
pub(crate) fn poly_polyline(width: NumberWidth, bytes: &[u8]) -> Result<Decoded<'_>, RecordFault>
    ensures value { poly_polyline_record width bytes.entry.now ≡ result_map decoded_of result }
{
    let lists = point_lists(width, bytes)?;
    Ok(Decoded::unnoted(Op::Polyline(lists)))
}

/// The number of lists, the number of points, the count of each list, and the points.
fn point_lists(width: NumberWidth, bytes: &[u8]) -> Result<Polys<'_>, RecordFault>
    ensures value { point_lists width bytes.entry.now ≡ result_map lists_of result }
{
    if bytes.len() < 32 {
        return Err(RecordFault::BadParams);
    }
    match lists_at(
        width,
        u32_at(bytes, 24) as usize,
        u32_at(bytes, 28) as usize,
        bytes,
    ) {
        Some(lists) => Ok(lists),
        None => Err(RecordFault::BadParams),
    }
}

/// This many lists with this many points in all. `None` if the bytes don't contain their counts and points, or if the
/// counts don't add up.
fn lists_at(width: NumberWidth, lists: usize, total: usize, bytes: &[u8]) -> Option<Polys<'_>>
    requires { 32 ≤ length bytes.now }
    ensures { lists_at width lists total bytes.entry.now ≡ option_map lists_of result }
{
    let Some(counts) = counts_at(NumberWidth::Long, lists, bytes, 32) else {
        return None;
    };
    let Some(points) = points_at(width, total, bytes, 32 + 4 * lists) else {
        return None;
    };
    Polys::new(counts, points)
}

/// EMR_RECTANGLE: Box.
pub(crate) fn rectangle(bytes: &[u8]) -> Result<Decoded<'_>, RecordFault>
    ensures value { rectangle_record bytes.entry.now ≡ result_map decoded_of result }
{
    if bytes.len() < 24 {
        return Err(RecordFault::BadParams);
    }
    Ok(Decoded::unnoted(Op::Rectangle {
        corners: box_at(bytes, 8),
        edges: RectangleEdges::Inclusive,
    }))
}

/// EMR_SETPIXELV: Pixel, Color.
pub(crate) fn set_pixel_v(bytes: &[u8]) -> Result<Decoded<'_>, RecordFault>
    ensures value { set_pixel_v bytes.entry.now ≡ result_map decoded_of result }
{
    if bytes.len() < 20 {
        return Err(RecordFault::BadParams);
    }
    let point = xy_at(bytes, 8);
    let colour = rgb_at(bytes, 16)?;
    Ok(Decoded::unnoted(Op::Pixel { point, colour }))
}
