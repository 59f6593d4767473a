//! Short texts of operations.

ghost use Rattle.std.specs.Prelude.{◌≡◌, ◌+◌, ◌≤◌, ◌++◌, length, decimal};
ghost use Rattle.point_views.specs.Polys.{lists_of};
ghost use Rattle.draw_ops.specs.Objects.{index_of, object_value_of};
ghost use Rattle.draw_ops.specs.Operation.{create, pixel, set_background_colour};
ghost use Rattle.draw_ops.specs.OperationOf.{operation_of};
ghost use Rattle.listing.specs.Asked.{asked_text, lists_text};
ghost use Rattle.listing.specs.Parts.{point_text, rect_text};

use crate::field_texts::{put_colour, put_number, put_point, put_rect, put_signed, put_size};
use crate::object_texts::{put_blit, put_index, put_object};
use crate::text_buffer::TextBuffer;
use draw_ops::{Handle, Object, Op};
use mapping::{Colour, Point, Rect};
use point_views::Polys;

/// Appends a name of at most 20 bytes and a number.
fn put_named_number(buffer: &mut TextBuffer, name: &str, number: u32)
    requires { length buffer.old + length name.now + 10 ≤ 8192 }
    ensures text { buffer.new ≡ buffer.old ++ name.now ++ decimal number }
    ensures short { length buffer.new ≤ length buffer.old + length name.now + 10 }
{
    buffer.put(name);
    put_number(buffer, number);
}

/// Appends a name and a point.
fn put_named_point(buffer: &mut TextBuffer, name: &str, point: Point)
    requires { length buffer.old + length name.now + 23 ≤ 8192 }
    ensures text { buffer.new ≡ buffer.old ++ name.now ++ point_text point }
    ensures short { length buffer.new ≤ length buffer.old + length name.now + 23 }
{
    buffer.put(name);
    put_point(buffer, point);
}

/// Appends a name and a box.
fn put_named_rect(buffer: &mut TextBuffer, name: &str, rect: Rect)
    requires { length buffer.old + length name.now + 47 ≤ 8192 }
    ensures text { buffer.new ≡ buffer.old ++ name.now ++ rect_text rect }
    ensures short { length buffer.new ≤ length buffer.old + length name.now + 47 }
{
    buffer.put(name);
    put_rect(buffer, rect);
}

/// Appends a name, the number of lists, and the number of points in all of them.
fn put_named_lists(buffer: &mut TextBuffer, name: &str, polys: Polys<'_>)
    requires { length buffer.old + length name.now + 56 ≤ 8192 }
    ensures text { buffer.new ≡ buffer.old ++ name.now ++ lists_text (lists_of polys.entry) }
    ensures short { length buffer.new ≤ length buffer.old + length name.now + 56 }
{
    buffer.put(name);
    buffer.put("lists ");
    put_size(buffer, polys.len());
    buffer.put(", points ");
    put_size(buffer, polys.points().len());
}

/// Appends the new background colour.
fn put_background(buffer: &mut TextBuffer, colour: Colour)
    requires { length buffer.old + 18 ≤ 8192 }
    ensures text { buffer.new ≡ buffer.old ++ asked_text (set_background_colour colour) }
    ensures short { length buffer.new ≤ length buffer.old + 18 }
{
    buffer.put("background ");
    put_colour(buffer, colour);
}

/// Appends a pixel's position and its colour.
fn put_pixel(buffer: &mut TextBuffer, point: Point, colour: Colour)
    requires { length buffer.old + 37 ≤ 8192 }
    ensures text { buffer.new ≡ buffer.old ++ asked_text (pixel point colour) }
    ensures short { length buffer.new ≤ length buffer.old + 37 }
{
    buffer.put("pixel ");
    put_point(buffer, point);
    buffer.put(" ");
    put_colour(buffer, colour);
}

/// Appends an object that is created, and its index.
fn put_create(buffer: &mut TextBuffer, at: Option<Handle>, object: &Object<'_>)
    requires { length buffer.old + 50 ≤ 8192 }
    ensures text { buffer.new ≡ buffer.old ++ asked_text (create (index_of at) (object_value_of object.now)) }
    ensures short { length buffer.new ≤ length buffer.old + 50 }
{
    buffer.put("create ");
    put_index(buffer, at);
    put_object(buffer, object);
}

/// Appends the text of an operation.
pub(crate) fn put_asked(buffer: &mut TextBuffer, op: &Op<'_>)
    requires { length buffer.old + 160 ≤ 8192 }
    ensures text { buffer.new ≡ buffer.old ++ asked_text (operation_of op.now) }
    ensures short { length buffer.new ≤ length buffer.old + 160 }
{
    match op {
        Op::NoEffect => buffer.put("nothing"),
        Op::Save => buffer.put("save"),
        Op::Restore(state) => {
            buffer.put("restore ");
            put_signed(buffer, state.0);
        }
        Op::SetBackgroundMode(mode) => {
            put_named_number(buffer, "background mode ", u32::from(mode.code()))
        }
        Op::SetMapMode(mode) => put_named_number(buffer, "map mode ", u32::from(mode.code())),
        Op::SetRasterOp(op) => put_named_number(buffer, "raster operation ", u32::from(op.code())),
        Op::SetFillMode(mode) => put_named_number(buffer, "fill mode ", u32::from(mode.code())),
        Op::SetBackgroundColour(colour) => put_background(buffer, *colour),
        Op::SetWindowOrigin(origin) => put_named_point(buffer, "window origin ", *origin),
        Op::SetWindowExtent(extent) => put_named_point(buffer, "window extent ", *extent),
        Op::SetViewportOrigin(origin) => put_named_point(buffer, "viewport origin ", *origin),
        Op::SetViewportExtent(extent) => put_named_point(buffer, "viewport extent ", *extent),
        Op::OffsetWindowOrigin(offset) => put_named_point(buffer, "window offset ", *offset),
        Op::OffsetViewportOrigin(offset) => put_named_point(buffer, "viewport offset ", *offset),
        Op::ExcludeClip(rect) => put_named_rect(buffer, "exclude ", *rect),
        Op::IntersectClip(rect) => put_named_rect(buffer, "intersect ", *rect),
        Op::RemoveClip => buffer.put("no clip"),
        Op::MoveTo(point) => put_named_point(buffer, "move ", *point),
        Op::LineTo(point) => put_named_point(buffer, "line ", *point),
        Op::Pixel { point, colour } => put_pixel(buffer, *point, *colour),
        Op::Rectangle { corners, edges: _ } => put_named_rect(buffer, "rectangle ", *corners),
        Op::Polyline(polys) => put_named_lists(buffer, "polyline ", *polys),
        Op::Polygon(polys) => put_named_lists(buffer, "polygon ", *polys),
        Op::PolylineTo(points) => {
            buffer.put("polyline to points ");
            put_size(buffer, points.len());
        }
        Op::Blit(blit) => put_blit(buffer, blit),
        Op::Create { at, object } => put_create(buffer, *at, object),
        Op::Select(handle) => put_named_number(buffer, "select ", handle.0),
        Op::SelectPalette(handle) => put_named_number(buffer, "select palette ", handle.0),
        Op::Delete(handle) => put_named_number(buffer, "delete ", handle.0),
        Op::BeginPath => buffer.put("begin path"),
        Op::EndPath => buffer.put("end path"),
        Op::CloseFigure => buffer.put("close figure"),
        Op::AbortPath => buffer.put("abort path"),
        Op::FillPath => buffer.put("fill path"),
        Op::StrokePath => buffer.put("stroke path"),
        Op::StrokeAndFillPath => buffer.put("stroke and fill path"),
    }
}
