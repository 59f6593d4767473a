//! The texts of objects, and of the sources of blits.

ghost use Rattle.std.specs.Prelude.{◌≡◌, ◌+◌, ◌≤◌, ◌++◌, length};
ghost use Rattle.draw_ops.specs.Blits.{blit_value_of, source_of};
ghost use Rattle.draw_ops.specs.Objects.{brush_value_of, index_of, object_value_of};
ghost use Rattle.listing.specs.ObjectTexts.{blit_text, extent_text, brush_text, index_text, object_text, pen_text, source_text};

use crate::field_texts::{put_code, put_colour, put_dimensions, put_number, put_point};
use crate::text_buffer::TextBuffer;
use draw_ops::{Blit, BlitSource, Brush, Handle, Object, Pen, SourceRectangle};
use mapping::Point;

/// Appends a pen's colour and its width, or that it draws nothing.
fn put_pen(buffer: &mut TextBuffer, pen: Pen)
    requires { length buffer.old + 28 ≤ 8192 }
    ensures text { buffer.new ≡ buffer.old ++ pen_text pen }
    ensures short { length buffer.new ≤ length buffer.old + 28 }
{
    match pen {
        Pen::Null => buffer.put("pen null"),
        Pen::Solid { width, colour } => {
            buffer.put("pen ");
            put_colour(buffer, colour);
            buffer.put(" width ");
            put_number(buffer, width);
        }
    }
}

/// Appends a brush's colour, its hatch with its colour, the size of its tile, or that it paints nothing.
fn put_brush(buffer: &mut TextBuffer, brush: &Brush<'_>)
    requires { length buffer.old + 32 ≤ 8192 }
    ensures text { buffer.new ≡ buffer.old ++ brush_text (brush_value_of brush.now) }
    ensures short { length buffer.new ≤ length buffer.old + 32 }
{
    match brush {
        Brush::Solid(colour) => {
            buffer.put("brush ");
            put_colour(buffer, *colour);
        }
        Brush::Null => buffer.put("brush null"),
        Brush::Hatched { hatch, colour } => {
            buffer.put("brush hatch ");
            put_code(buffer, hatch.code());
            buffer.put(" ");
            put_colour(buffer, *colour);
        }
        Brush::Tiled(picture) => {
            buffer.put("brush tile ");
            put_dimensions(buffer, picture.width(), picture.height());
        }
    }
}

/// Appends what an object is.
pub(crate) fn put_object(buffer: &mut TextBuffer, object: &Object<'_>)
    requires { length buffer.old + 32 ≤ 8192 }
    ensures text { buffer.new ≡ buffer.old ++ object_text (object_value_of object.now) }
    ensures short { length buffer.new ≤ length buffer.old + 32 }
{
    match object {
        Object::Pen(pen) => put_pen(buffer, *pen),
        Object::Brush(brush) => put_brush(buffer, brush),
        Object::Font => buffer.put("font"),
        Object::Palette => buffer.put("palette"),
    }
}

/// Appends the index for a new object and a space, if an index is given.
pub(crate) fn put_index(buffer: &mut TextBuffer, at: Option<Handle>)
    requires { length buffer.old + 11 ≤ 8192 }
    ensures text { buffer.new ≡ buffer.old ++ index_text (index_of at) }
    ensures short { length buffer.new ≤ length buffer.old + 11 }
{
    if let Some(handle) = at {
        put_number(buffer, handle.0);
        buffer.put(" ");
    }
}

/// Appends a corner, and the extent from there.
#[tactic(auto, unfolding(crate::specs::ObjectTexts::extent_text))]
fn put_box(buffer: &mut TextBuffer, corner: Point, extent: Point)
    requires { length buffer.old + 54 ≤ 8192 }
    ensures text { buffer.new ≡ buffer.old ++ extent_text corner extent }
    ensures short { length buffer.new ≤ length buffer.old + 54 }
{
    put_point(buffer, corner);
    buffer.put(" extent ");
    put_point(buffer, extent);
}

/// Appends the size of a bitmap, and the source rectangle in it.
fn put_rectangle(buffer: &mut TextBuffer, rectangle: &SourceRectangle<'_>)
    requires { length buffer.old + 86 ≤ 8192 }
    ensures text { buffer.new ≡ buffer.old ++ source_text (source_of (BlitSource.FromTop rectangle.now)) }
    ensures short { length buffer.new ≤ length buffer.old + 86 }
{
    buffer.put(" of ");
    put_dimensions(
        buffer,
        rectangle.picture.width(),
        rectangle.picture.height(),
    );
    buffer.put(" from ");
    put_box(buffer, rectangle.corner, rectangle.extent);
}

/// Appends the source of a blit, if there is a bitmap.
fn put_source(buffer: &mut TextBuffer, source: &BlitSource<'_>)
    requires { length buffer.old + 86 ≤ 8192 }
    ensures text { buffer.new ≡ buffer.old ++ source_text (source_of source.now) }
    ensures short { length buffer.new ≤ length buffer.old + 86 }
{
    match source {
        BlitSource::Missing => {}
        BlitSource::FromTop(rectangle) => put_rectangle(buffer, rectangle),
        BlitSource::FromBottom(rectangle) => put_rectangle(buffer, rectangle),
    }
}

/// Appends a blit's rectangle, the table of its operation, and its source.
pub(crate) fn put_blit(buffer: &mut TextBuffer, blit: &Blit<'_>)
    requires { length buffer.old + 160 ≤ 8192 }
    ensures text { buffer.new ≡ buffer.old ++ blit_text (blit_value_of blit.now) }
    ensures short { length buffer.new ≤ length buffer.old + 160 }
{
    buffer.put("blit ");
    put_box(buffer, blit.corner, blit.extent);
    buffer.put(" table ");
    put_code(buffer, blit.operation.table);
    put_source(buffer, &blit.source);
}
