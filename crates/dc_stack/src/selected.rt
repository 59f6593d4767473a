//! The selected objects.

ghost use Rattle.std.specs.Prelude.{◌≡◌, None};
ghost use Rattle.draw_ops.specs.Objects.{index_of, object_value_of};
ghost use Rattle.dc_stack.specs.Deleting.{other_index, without_index};
ghost use Rattle.dc_stack.specs.Selecting.{is_index_of, selects, with_object_selected};
ghost use Rattle.dc_stack.specs.State.{stock_selections};

use draw_ops::{Brush, Handle, Object, Pen};
use mapping::Colour;

/// The selected objects, each with its index, unless it is a stock object or was deleted while it was selected. Nothing
/// is drawn with the font and the palette, so only their indexes are stored.
#[derive(Clone, Copy, Debug, PartialEq, Eq)]
pub struct Selected<'a> {
    pub pen: Pen,
    pub pen_handle: Option<Handle>,
    pub brush: Brush<'a>,
    pub brush_handle: Option<Handle>,
    pub font: Option<Handle>,
    pub palette: Option<Handle>,
}

impl<'a> Selected<'a> {
    ghost use Rattle.dc_stack.specs.Values.{selections_value};

    /// The stock objects that are selected at the start of each file.
    pub(crate) fn stock() -> Selected<'a>
        ensures { selections_value result ≡ stock_selections }
    {
        Selected {
            pen: Pen::hairline(Colour { r: 0, g: 0, b: 0 }),
            pen_handle: None,
            brush: Brush::Solid(Colour::WHITE),
            brush_handle: None,
            font: None,
            palette: None,
        }
    }

    /// Selects an object, replacing the one of its kind.
    pub(crate) fn select(&mut self, handle: Option<Handle>, object: Object<'a>)
        ensures { selections_value self.new ≡ with_object_selected (index_of handle) (object_value_of object.entry) (selections_value self.old) }
    {
        match object {
            Object::Pen(pen) => {
                self.pen = pen;
                self.pen_handle = handle;
            }
            Object::Brush(brush) => {
                self.brush = brush;
                self.brush_handle = handle;
            }
            Object::Font => self.font = handle,
            Object::Palette => self.palette = handle,
        }
    }

    /// Drops this index. What has it selected keeps its values.
    pub(crate) fn let_go(&mut self, handle: Handle)
        ensures { selections_value self.new ≡ without_index handle.0 (selections_value self.old) }
    {
        self.pen_handle = other_than(handle, self.pen_handle);
        self.brush_handle = other_than(handle, self.brush_handle);
        self.font = other_than(handle, self.font);
        self.palette = other_than(handle, self.palette);
    }

    /// Whether one of the selected objects has this index.
    pub(crate) fn has(&self, handle: Handle) -> bool
        ensures { result ≡ selects handle.0 (selections_value self.now) }
    {
        is_of(handle, self.pen_handle)
            || is_of(handle, self.brush_handle)
            || is_of(handle, self.font)
            || is_of(handle, self.palette)
    }
}

/// Whether a stored index is this one.
fn is_of(handle: Handle, kept: Option<Handle>) -> bool
    ensures { result ≡ is_index_of handle.0 (index_of kept) }
{
    match kept {
        None => false,
        Some(kept) => kept.0 == handle.0,
    }
}

/// A stored index, or `None` if it is this one.
fn other_than(handle: Handle, kept: Option<Handle>) -> Option<Handle>
    ensures { index_of result ≡ other_index handle.0 (index_of kept) }
{
    if is_of(handle, kept) { None } else { kept }
}
