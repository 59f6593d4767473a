//! Operations: what records ask for, in terms that WMF and EMF share.

use crate::blits::Blit;
use crate::objects::{Handle, Object};
use crate::raster_op::RasterOp;
use crate::settings::{BackgroundMode, FillMode};
use mapping::{Colour, MapMode, Point, Rect};
use point_views::{Points, Polys};

/// The saved state to restore, as META_RESTOREDC and EMR_RESTOREDC give it: a positive number counts from the first
/// saved state, a negative one from the last.
#[derive(Clone, Copy, Debug, PartialEq, Eq)]
pub struct SavedState(pub i32);

/// Whether the right and bottom edges of a rectangle belong to it.
#[derive(Clone, Copy, Debug, PartialEq, Eq)]
pub enum RectangleEdges {
    /// They don't, as in META_RECTANGLE.
    HalfOpen,
    /// They do, as in EMR_RECTANGLE.
    Inclusive,
}

/// What one record asks for. Coordinates are page coordinates.
#[derive(Clone, Copy, Debug, PartialEq, Eq)]
pub enum Op<'a> {
    /// Nothing: a header, the end of the file, or a record that is skipped.
    NoEffect,

    // The state.
    /// Save the state (SAVEDC).
    Save,
    /// Restore a saved state (RESTOREDC).
    Restore(SavedState),
    /// SETBKMODE.
    SetBackgroundMode(BackgroundMode),
    /// SETMAPMODE.
    SetMapMode(MapMode),
    /// SETROP2.
    SetRasterOp(RasterOp),
    /// SETPOLYFILLMODE.
    SetFillMode(FillMode),
    /// SETBKCOLOR.
    SetBackgroundColour(Colour),

    // The map of the page.
    /// SETWINDOWORG, SETWINDOWORGEX.
    SetWindowOrigin(Point),
    /// SETWINDOWEXT, SETWINDOWEXTEX. `x` is the width and `y` the height.
    SetWindowExtent(Point),
    /// SETVIEWPORTORG, SETVIEWPORTORGEX.
    SetViewportOrigin(Point),
    /// SETVIEWPORTEXT, SETVIEWPORTEXTEX. `x` is the width and `y` the height.
    SetViewportExtent(Point),
    /// OFFSETWINDOWORG. `x` and `y` are added to the origin.
    OffsetWindowOrigin(Point),
    /// OFFSETVIEWPORTORG. `x` and `y` are added to the origin.
    OffsetViewportOrigin(Point),

    // The clip.
    /// Take the box out of the clip (EXCLUDECLIPRECT).
    ExcludeClip(Rect),
    /// Keep the clip within the box (INTERSECTCLIPRECT).
    IntersectClip(Rect),
    /// Remove the clip.
    RemoveClip,

    // Drawings.
    /// Make the point the current one (MOVETO, MOVETOEX).
    MoveTo(Point),
    /// Draw a line from the current point, and make its end the current point (LINETO).
    LineTo(Point),
    /// Draw one pixel (SETPIXEL, SETPIXELV).
    Pixel {
        point: Point,
        colour: Colour,
    },
    /// RECTANGLE.
    Rectangle {
        corners: Rect,
        edges: RectangleEdges,
    },
    /// Draw lines from point to point, for each list (POLYLINE, POLYPOLYLINE).
    Polyline(Polys<'a>),
    /// Draw polygons that are filled together, one for each list (POLYGON, POLYPOLYGON).
    Polygon(Polys<'a>),
    /// Draw lines from the current point to each point, and make the last one the current point (POLYLINETO).
    PolylineTo(Points<'a>),
    /// Combine a brush and a bitmap with a rectangle (PATBLT, BITBLT, STRETCHBLT, STRETCHDIB and similar records).
    Blit(Blit<'a>),

    // Objects.
    /// Make an object at the index, or at the lowest free one (WMF).
    Create {
        at: Option<Handle>,
        object: Object<'a>,
    },
    /// Select the object for further drawing (SELECTOBJECT).
    Select(Handle),
    /// SELECTPALETTE.
    SelectPalette(Handle),
    /// DELETEOBJECT.
    Delete(Handle),

    // Paths.
    /// BEGINPATH.
    BeginPath,
    /// ENDPATH.
    EndPath,
    /// CLOSEFIGURE.
    CloseFigure,
    /// ABORTPATH.
    AbortPath,
    /// FILLPATH.
    FillPath,
    /// STROKEPATH.
    StrokePath,
    /// STROKEANDFILLPATH.
    StrokeAndFillPath,
}

// An operation is moved once for each record.
const _: () = prove!(size_of::<Op<'static>>() <= 96);
