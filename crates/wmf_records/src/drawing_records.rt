//! Drawing records ([MS-WMF] 2.3.3).

ghost use Rattle.std.specs.Prelude.{◌≡◌, ◌≤◌, Some, length};
ghost use Rattle.std.specs.Option.{option_map};
ghost use Rattle.draw_ops.specs.RecordOf.{decoded_of};
ghost use Rattle.draw_ops.specs.Results.{result_map};
ghost use Rattle.point_views.specs.Counts.{counts_of};
ghost use Rattle.point_views.specs.Points.{points_of};
ghost use Rattle.point_views.specs.Polys.{lists_of};
ghost use Rattle.wmf_records.specs.DrawingRecords.{counted_points, line_to_record, lists_of_polygons, point_list};
ghost use Rattle.wmf_records.specs.DrawingRecords.{points_for, poly_polygon_record, polygon_record, polyline_record, rectangle_record, set_pixel};
ghost use Rattle.point_views.specs.Numbers.{i16_at};

use draw_ops::{
    Decoded, Op, RecordFault, RectangleEdges, counts_at, points_at, reversed_box_at, rgb_at, yx_at,
};
use point_views::{Counts, NumberWidth, Points, Polys, i16_at, u16_at};

/// META_LINETO (2.3.3.10): y, x.
pub(crate) fn line_to(bytes: &[u8]) -> Result<Decoded<'_>, RecordFault>
    ensures value { line_to_record bytes.entry.now ≡ result_map decoded_of result }
{
    if bytes.len() < 10 {
        return Err(RecordFault::BadParams);
    }
    Ok(Decoded::unnoted(Op::LineTo(yx_at(bytes, 6))))
}

/// META_POLYLINE (2.3.3.14): NumberOfPoints, aPoints.
pub(crate) fn polyline(bytes: &[u8]) -> Result<Decoded<'_>, RecordFault>
    ensures value { polyline_record bytes.entry.now ≡ result_map decoded_of result }
{
    let points = points(bytes)?;
    Ok(Decoded::unnoted(Op::Polyline(Polys::one(points))))
}

/// META_POLYGON (2.3.3.15): NumberOfPoints, aPoints.
pub(crate) fn polygon(bytes: &[u8]) -> Result<Decoded<'_>, RecordFault>
    ensures value { polygon_record bytes.entry.now ≡ result_map decoded_of result }
{
    let points = points(bytes)?;
    Ok(Decoded::unnoted(Op::Polygon(Polys::one(points))))
}

/// A count of points, followed by the points.
fn points(bytes: &[u8]) -> Result<Points<'_>, RecordFault>
    ensures value { point_list bytes.entry.now ≡ result_map points_of result }
{
    if bytes.len() < 8 {
        return Err(RecordFault::BadParams);
    }
    match counted_points(i16_at(bytes, 6), bytes) {
        Some(points) => Ok(points),
        None => Err(RecordFault::BadParams),
    }
}

/// This many points after the count. `None` if the count is negative, or if the bytes don't contain them.
fn counted_points(count: i16, bytes: &[u8]) -> Option<Points<'_>>
    requires { 8 ≤ length bytes.now }
    ensures { counted_points count bytes.entry.now ≡ option_map points_of result }
{
    let Ok(count) = usize::try_from(count) else {
        return None;
    };
    points_at(NumberWidth::Short, count, bytes, 8)
}

/// META_POLYPOLYGON (2.3.3.16): NumberOfPolygons, aPointsPerPolygon, aPoints.
pub(crate) fn poly_polygon(bytes: &[u8]) -> Result<Decoded<'_>, RecordFault>
    ensures value { poly_polygon_record bytes.entry.now ≡ result_map decoded_of result }
{
    if bytes.len() < 8 {
        return Err(RecordFault::BadParams);
    }
    match polygons(usize::from(u16_at(bytes, 6)), bytes) {
        Some(polygons) => Ok(Decoded::unnoted(Op::Polygon(polygons))),
        None => Err(RecordFault::BadParams),
    }
}

/// This many polygons after their number. `None` if the bytes don't contain their counts and points.
fn polygons(number: usize, bytes: &[u8]) -> Option<Polys<'_>>
    requires { 8 ≤ length bytes.now }
    ensures { lists_of_polygons number bytes.entry.now ≡ option_map lists_of result }
{
    let Some(counts) = counts_at(NumberWidth::Short, number, bytes, 8) else {
        return None;
    };
    let Some(points) = points_for(counts, bytes, 8 + 2 * number) else {
        return None;
    };
    Polys::new(counts, points)
}

/// As many points as the counts ask for, from an offset on. `None` if the bytes don't contain them.
fn points_for<'a>(counts: Counts<'a>, bytes: &'a [u8], place: usize) -> Option<Points<'a>>
    requires { place ≤ length bytes.now }
    ensures { points_for (Some (counts_of counts.entry)) bytes.entry.now place ≡ option_map points_of result }
{
    let Some(total) = counts.sum_within((bytes.len() - place) / 4) else {
        return None;
    };
    points_at(NumberWidth::Short, total, bytes, place)
}

/// META_RECTANGLE (2.3.3.17): BottomRect, RightRect, TopRect, LeftRect.
pub(crate) fn rectangle(bytes: &[u8]) -> Result<Decoded<'_>, RecordFault>
    ensures value { rectangle_record bytes.entry.now ≡ result_map decoded_of result }
{
    if bytes.len() < 14 {
        return Err(RecordFault::BadParams);
    }
    Ok(Decoded::unnoted(Op::Rectangle {
        corners: reversed_box_at(bytes, 6),
        edges: RectangleEdges::HalfOpen,
    }))
}

/// META_SETPIXEL (2.3.3.19): ColorRef, y, x.
pub(crate) fn set_pixel(bytes: &[u8]) -> Result<Decoded<'_>, RecordFault>
    ensures value { set_pixel bytes.entry.now ≡ result_map decoded_of result }
{
    if bytes.len() < 14 {
        return Err(RecordFault::BadParams);
    }
    let colour = rgb_at(bytes, 6)?;
    let point = yx_at(bytes, 10);
    Ok(Decoded::unnoted(Op::Pixel { point, colour }))
}
