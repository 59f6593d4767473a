//! Where page coordinates land: first on the plane, then on a surface.
//!
//! # What is promised
//!
//! - No sum, product or quotient wraps or divides by 0, for any page coordinate and any map (each function is proved
//!   safe for all its inputs).
//! - A plane coordinate is the floor of the exact fraction, for negative extents too (`PageMap::plane`, by
//!   `plane_coordinate`; `floor_division_law` says what floor means).
//! - A point leaves the plane, or doesn't fit a surface, exactly if a limit says so (`PageMap::plane`, `Place::fits`).
//! - The initial maps of a placeable WMF, a plain WMF and an EMF file are those that their headers define
//!   (`PageMap::placeable`, `plain`, `unscaled`).
//! - A unit of the frame may have several parts: as many as the longer side of the frame allows (`Frame::parts`,
//!   `fine`, by `fine_parts`). Then a plane coordinate is the floor of the fraction in parts (`PageMap::in_parts`). With
//!   one part, coordinates and nibs are those without parts (`part_law`).
//! - A record that sets the mode, an origin or an extent, or moves an origin, changes the map by its rule, and leaves
//!   it unchanged if the record is rejected (`PageMap::set_mode`, `set_window_origin`, `set_viewport_origin`,
//!   `set_window_extent`, `set_viewport_extent`, `offset_window_origin`, `offset_viewport_origin`).
//! - An extent is rejected exactly if the mode lets it be set and it is 0 on an axis. A moved origin is rejected
//!   exactly if one of its coordinates doesn't fit 32 bits (the clauses `test` of the same functions).
//! - Each test of a limit is true exactly if the limit holds (`limits_law`).
//! - Placing preserves the order of coordinates. A point that lands within the limits on a surface also does so on each
//!   surface that is no larger and shows a frame of the same size (`placing_law`).
//! - A bounding box can be extended point by point (`Rect::around`, `Rect::with`). Page maps and places map the
//!   bounding box of points to the bounding box of their images, by two of its corners, which decide whether all of the
//!   points land (`box_law`).
//! - A box has the corners, pixels and rows that its edges define. Its intersection with another box is what both
//!   contain, and it contains another box if its edges do (`Rect::left_top`, `right_bottom`, `has_pixel`, `has_row`,
//!   `common`, `contains`).
//! - `cells` bounds the number of columns, or rows, of a surface that a part of the plane meets. It doesn't decrease if
//!   the surface or the part grows (`cell_law`).
//! - A pen's nib has the size of the pen's width on the surface, rounded down and at least 1. There is no nib exactly
//!   if its width or height would exceed 4,096 (`Place::nib`). On a larger surface it is at least as large (`nib_law`).
//! - `wide_cells` bounds the number of columns, or rows, of a surface that a nib covers as it moves over a part of the
//!   plane. It doesn't decrease if the surface or the nib grows (`wide_cell_law`).
//! - A mix keeps, drops and flips the given bits of a colour and no others (`Mix::apply`, by `mixed_by`). One mix turns
//!   every colour into a given one (`Mix::copy`).
//!
//! Nothing here allocates memory: the values are numbers. No contract says so, but a test counts the allocations of the
//! built program.
#![tactic(auto)]

mod cell_count;
mod divisor;
mod fine_axis;
mod floor;
mod geometry;
mod limits;
mod map_error;
mod map_mode;
mod map_settings;
mod mix;
mod nib;
mod page_axis;
mod page_map;
mod parts;
mod place;

pub use cell_count::{cell_law, cells, wide_cell_law, wide_cells};
pub use floor::floor_division_law;
pub use geometry::{Colour, Frame, Point, Rect};
pub use limits::{MAX_FRAME_SIDE, MAX_SURFACE_SIDE, limits_law};
pub use map_error::{OffPlane, ZeroExtent};
pub use map_mode::MapMode;
pub use mix::Mix;
pub use nib::{MAX_NIB_SIDE, Nib, nib_law, reach_after, reach_before};
pub use page_axis::PageAxis;
pub use page_map::PageMap;
pub use parts::part_law;
pub use place::{Place, box_law, placing_law};
