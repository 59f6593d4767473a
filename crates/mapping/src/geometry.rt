//! Points, boxes, colours and frames: plain values that all crates use.

ghost use Rattle.std.specs.Prelude.{◌≡◌, ◌↔◌, IsTrue, IsSome, IfSome};
ghost use Rattle.std.specs.Int.{int_max, int_min};
ghost use Rattle.mapping.specs.Limits.{IsFrameSide};
ghost use Rattle.mapping.specs.PixelBoxes.{is_from_to};

use crate::limits::MAX_FRAME_SIDE;

/// A point, or a width and a height, of the page, the plane or a surface. On the plane and on a surface, `x` grows to
/// the right and `y` downwards.
#[derive(Clone, Copy, Debug, PartialEq, Eq)]
pub struct Point {
    pub x: i32,
    pub y: i32,
}

/// A box of the page, the plane or a surface. Each use says whether the right and bottom edges belong to the box, and
/// whether the edges are in order.
#[derive(Clone, Copy, Debug, PartialEq, Eq)]
pub struct Rect {
    /// The left edge: the first column of the box.
    pub l: i32,
    /// The top edge: the first row of the box.
    pub t: i32,
    /// The right edge: the last column of the box, or the first one after it.
    pub r: i32,
    /// The bottom edge: the last row of the box, or the first one after it.
    pub b: i32,
}

impl Rect {
    ghost use Rattle.mapping.specs.Boxes.{IsBoxOver, box_between, common_box, has_box, has_part, left_top_of, point_box, right_bottom_of};
    ghost use Rattle.mapping.specs.PixelBoxes.{in_box, is_from_to};

    /// The bounding box of no points.
    pub const NONE: Rect = Rect {
        l: 0,
        t: 0,
        r: -1,
        b: -1,
    };

    /// The bounding box of one point.
    pub fn around(point: Point) -> Rect
        ensures { result ≡ point_box point }
    {
        Rect {
            l: point.x,
            t: point.y,
            r: point.x,
            b: point.y,
        }
    }

    /// The bounding box of this box and a point. Right and bottom are inclusive.
    pub fn with(self, point: Point) -> Rect
        ensures { IsBoxOver self (point_box point) result }
    {
        self.joined(Rect::around(point))
    }

    /// The bounding box of this box and another. Right and bottom are inclusive.
    pub fn joined(self, other: Rect) -> Rect
        ensures { IsBoxOver self other result }
    {
        let left_top = least(self.left_top(), other.left_top());
        let right_bottom = most(self.right_bottom(), other.right_bottom());
        Rect::by_corners(left_top, right_bottom)
    }

    /// The box between two points in any order. Right and bottom are inclusive.
    pub fn between(first: Point, second: Point) -> Rect
        ensures { result ≡ box_between first second }
    {
        Rect::by_corners(least(first, second), most(first, second))
    }

    /// The top left corner.
    pub fn left_top(self) -> Point
        ensures { result ≡ left_top_of self }
    {
        Point {
            x: self.l,
            y: self.t,
        }
    }

    /// The bottom right corner.
    pub fn right_bottom(self) -> Point
        ensures { result ≡ right_bottom_of self }
    {
        Point {
            x: self.r,
            y: self.b,
        }
    }

    /// The intersection of this box and another.
    pub fn common(self, other: Rect) -> Rect
        ensures { result ≡ common_box self other }
    {
        let left_top = most(self.left_top(), other.left_top());
        let right_bottom = least(self.right_bottom(), other.right_bottom());
        Rect::by_corners(left_top, right_bottom)
    }

    /// Whether another box lies inside this one. Right and bottom are inclusive for both.
    pub fn contains(self, other: Rect) -> bool
        ensures { result ≡ has_box self other }
    {
        self.has_columns_of(other) && self.has_rows_of(other)
    }

    /// The box with these two corners.
    fn by_corners(left_top: Point, right_bottom: Point) -> Rect
        ensures left_top { left_top_of result ≡ left_top }
        ensures right_bottom { right_bottom_of result ≡ right_bottom }
    {
        Rect {
            l: left_top.x,
            t: left_top.y,
            r: right_bottom.x,
            b: right_bottom.y,
        }
    }

    /// Whether each column of another box is a column of this one. The right edges are inclusive.
    fn has_columns_of(self, other: Rect) -> bool
        ensures { result ≡ has_part self.l self.r other.l other.r }
    {
        self.l <= other.l && other.r <= self.r
    }

    /// Whether each row of another box is a row of this one. The bottom edges are inclusive.
    fn has_rows_of(self, other: Rect) -> bool
        ensures { result ≡ has_part self.t self.b other.t other.b }
    {
        self.t <= other.t && other.b <= self.b
    }

    /// Whether the box contains the pixel `(x, y)` of a surface. Right and bottom are exclusive.
    pub fn has_pixel(self, x: u32, y: u32) -> bool
        ensures { result ≡ in_box self x y }
    {
        is_from_to(self.l, self.r, x) && self.has_row(y)
    }

    /// Whether the box contains the row `y` of a surface. The bottom is exclusive.
    pub fn has_row(self, y: u32) -> bool
        ensures { result ≡ is_from_to self.t self.b y }
    {
        is_from_to(self.t, self.b, y)
    }
}

/// The colour of a pixel, with components from 0 (none) to 255 (full).
#[derive(Clone, Copy, Debug, PartialEq, Eq)]
pub struct Colour {
    pub r: u8,
    pub g: u8,
    pub b: u8,
}

impl Colour {
    /// The colour of paper, on which a file is played.
    pub const WHITE: Colour = Colour {
        r: 255,
        g: 255,
        b: 255,
    };
}

/// The part of the plane that a surface shows, by its width and height in plane units. Its corner is the origin of the
/// plane.
///
/// # Guarantees
///
/// - The width and the height are from 1 to 2^28.
#[derive(Clone, Copy, Debug, PartialEq, Eq)]
pub struct Frame {
    pub width: u32,
    pub height: u32,
    pub ghost wide: { IsFrameSide width },
    pub ghost high: { IsFrameSide height },
}

impl Frame {
    /// The frame of this size. `None` exactly if the width or the height is 0 or above 2^28.
    pub fn new(width: u32, height: u32) -> Option<Frame>
        ensures dimensions { IsSome result ↔ (IsFrameSide width × IsFrameSide height) }
        ensures width { IfSome result (λ frame. frame.width ≡ width) }
        ensures height { IfSome result (λ frame. frame.height ≡ height) }
    {
        if is_side(width) && is_side(height) {
            Some(Frame { width, height })
        } else {
            None
        }
    }
}

/// Whether a frame may have this width or height.
fn is_side(side: u32) -> bool
    ensures { IsTrue result ↔ IsFrameSide side }
{
    1 <= side && side <= MAX_FRAME_SIDE
}

/// The point with the smaller of two points' coordinates on each axis.
fn least(first: Point, second: Point) -> Point
    ensures x { result.x ≡ int_min first.x second.x }
    ensures y { result.y ≡ int_min first.y second.y }
{
    Point {
        x: first.x.min(second.x),
        y: first.y.min(second.y),
    }
}

/// The point with the greater of two points' coordinates on each axis.
fn most(first: Point, second: Point) -> Point
    ensures x { result.x ≡ int_max first.x second.x }
    ensures y { result.y ≡ int_max first.y second.y }
{
    Point {
        x: first.x.max(second.x),
        y: first.y.max(second.y),
    }
}

/// Whether a column or row is at or after one number and before another.
fn is_from_to(from: i32, to: i32, at: u32) -> bool
    ensures { result ≡ is_from_to from to at }
{
    i64::from(from) <= i64::from(at) && i64::from(at) < i64::from(to)
}
