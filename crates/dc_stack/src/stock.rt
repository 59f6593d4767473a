//! The stock objects, which exist in every file.

ghost use Rattle.std.specs.Prelude.{◌≡◌};
ghost use Rattle.std.specs.Option.{option_map};
ghost use Rattle.draw_ops.specs.Objects.{brush_object, index_of, object_value_of, pen_object, solid_brush};
ghost use Rattle.draw_ops.specs.declared.objects.Pen.TheVariants.{Solid};
ghost use Rattle.dc_stack.specs.Selecting.{own_index};
ghost use Rattle.dc_stack.specs.StockObjects.{grey, is_stock_index, stock_object};

use draw_ops::{Brush, Handle, Object, Pen};
use mapping::Colour;

/// The first index of the stock objects ([MS-EMF] 2.1.31).
const FIRST_STOCK: u32 = 0x8000_0000;

/// Whether the index is that of a stock object.
pub(crate) fn is_stock(handle: Handle) -> bool
    ensures { result ≡ is_stock_index handle.0 }
{
    FIRST_STOCK <= handle.0
}

/// The index to store for a selected object. None for a stock object.
pub(crate) fn own_handle(handle: Handle) -> Option<Handle>
    ensures { index_of result ≡ own_index handle.0 }
{
    if is_stock(handle) { None } else { Some(handle) }
}

/// The stock object with this index.
pub(crate) fn stock_object<'a>(handle: Handle) -> Option<Object<'a>>
    ensures { option_map object_value_of result ≡ stock_object handle.0 }
{
    match handle.0 {
        0x8000_0000 => Some(grey_brush(0xff)),
        0x8000_0001 => Some(grey_brush(0xc0)),
        0x8000_0002 => Some(grey_brush(0x80)),
        0x8000_0003 => Some(grey_brush(0x40)),
        0x8000_0004 => Some(grey_brush(0x00)),
        0x8000_0005 => Some(Object::Brush(Brush::Null)),
        0x8000_0006 => Some(grey_pen(0xff)),
        0x8000_0007 => Some(grey_pen(0x00)),
        0x8000_0008 => Some(Object::Pen(Pen::Null)),
        0x8000_000a => Some(Object::Font),
        0x8000_000b => Some(Object::Font),
        0x8000_000c => Some(Object::Font),
        0x8000_000d => Some(Object::Font),
        0x8000_000e => Some(Object::Font),
        0x8000_000f => Some(Object::Palette),
        0x8000_0010 => Some(Object::Font),
        0x8000_0011 => Some(Object::Font),
        0x8000_0012 => Some(grey_brush(0xff)),
        0x8000_0013 => Some(grey_pen(0x00)),
        _ => None,
    }
}

/// A grey brush, by its single component.
fn grey_brush<'a>(part: u8) -> Object<'a>
    ensures { object_value_of result ≡ brush_object (solid_brush (grey part)) }
{
    Object::Brush(Brush::Solid(Colour {
        r: part,
        g: part,
        b: part,
    }))
}

/// A grey pen, by its single component.
fn grey_pen<'a>(part: u8) -> Object<'a>
    ensures { object_value_of result ≡ pen_object (Solid 0 (grey part)) }
{
    Object::Pen(Pen::hairline(Colour {
        r: part,
        g: part,
        b: part,
    }))
}
