//! Lists of points, read in place.

ghost use Rattle.std.specs.Prelude.{◌≡◌, ◌+◌, ◌*◌, ◌%◌, ◌<◌, ◌≤◌, ◌↔◌, [], ◌∷◌, length, drop, IsTrue, IsSome, IsNone, IfSome, Some, slice_get, slice_range};
ghost use Rattle.point_views.specs.Numbers.{point_size, first_point};

use crate::numbers::{NumberWidth, signed_at};
use mapping::Point;

/// Points, one after another in a file's bytes. Each has an x and a y, in 16 bits as in a PointS ([MS-WMF] 2.2.2.16) or
/// in 32 bits as in a PointL ([MS-WMF] 2.2.2.15). A view is a slice of the file and a width, and `get` reads a point
/// from it.
///
/// # Guarantees
///
/// - `bytes` contains the points and nothing else, so two views with the same width are equal exactly if their bytes
///   are.
#[derive(Clone, Copy, Debug, PartialEq, Eq)]
pub struct Points<'a> {
    /// The points' bytes.
    pub bytes: &'a [u8],
    /// The width of each coordinate.
    pub width: NumberWidth,
    pub ghost whole: { length bytes.now % point_size width ≡ 0 },
}

#[tactic(auto, using(crate::proofs::PointLemmas::points))]
impl<'a> Points<'a> {
    ghost use Rattle.point_views.specs.Points.{points_in, points_of};

    /// The first `n` points in the bytes, with coordinates of 16 bits. `None` exactly if there are fewer than `4 * n`
    /// bytes. Bytes after the points don't matter.
    pub fn new16(bytes: &'a [u8], n: usize) -> Option<Points<'a>>
        ensures enough { IsSome result ↔ (4 * n ≤ length bytes.now) }
        ensures points { IfSome result (λ points. points_of points ≡ points_in NumberWidth.Short n bytes.now) }
    {
        if bytes.len() / 4 < n {
            return None;
        }
        Some(Points {
            bytes: &bytes[..4 * n],
            width: NumberWidth::Short,
        })
    }

    /// The first `n` points in the bytes, with coordinates of 32 bits. `None` exactly if there are fewer than `8 * n`
    /// bytes. Bytes after the points don't matter.
    pub fn new32(bytes: &'a [u8], n: usize) -> Option<Points<'a>>
        ensures enough { IsSome result ↔ (8 * n ≤ length bytes.now) }
        ensures points { IfSome result (λ points. points_of points ≡ points_in NumberWidth.Long n bytes.now) }
    {
        if bytes.len() / 8 < n {
            return None;
        }
        Some(Points {
            bytes: &bytes[..8 * n],
            width: NumberWidth::Long,
        })
    }

    /// No points.
    pub(crate) fn empty() -> Points<'a>
        ensures { points_of result ≡ [] }
    {
        Points {
            bytes: &[],
            width: NumberWidth::Short,
        }
    }

    /// The number of points.
    pub fn len(self) -> usize
        ensures { result ≡ length (points_of self.entry) }
    {
        match self.width {
            NumberWidth::Short => self.bytes.len() / 4,
            NumberWidth::Long => self.bytes.len() / 8,
        }
    }

    /// Whether there is no point.
    pub fn is_empty(self) -> bool
        ensures { IsTrue result ↔ (points_of self.entry ≡ []) }
    {
        self.len() == 0
    }

    /// The point at an index.
    pub fn get(self, i: usize) -> Point
        requires { i < length (points_of self) }
        ensures { slice_get (points_of self.entry) i ≡ Some result }
    {
        point_at(self.bytes, self.place(i), self.width)
    }

    /// The points from index `from` to before index `to`.
    pub fn part(self, from: usize, to: usize) -> Points<'a>
        requires order { from ≤ to }
        requires within { to ≤ length (points_of self) }
        ensures { points_of result ≡ slice_range (points_of self.entry) from to }
    {
        Points {
            bytes: &self.bytes[self.place(from)..self.place(to)],
            width: self.width,
        }
    }

    /// The first point, and the points after it. `None` exactly if there is no point.
    pub fn split_first(self) -> Option<(Point, Points<'a>)>
        ensures none { IsNone result ↔ (points_of self.entry ≡ []) }
        ensures points { IfSome result (λ split. points_of self.entry ≡ split.0 ∷ points_of split.1) }
    {
        if self.is_empty() {
            return None;
        }
        Some((self.get(0), self.part(1, self.len())))
    }

    /// The offset of a point's first byte, or the end of the bytes.
    fn place(self, i: usize) -> usize
        requires { i ≤ length (points_of self) }
        ensures place { result ≡ point_size self.entry.width * i }
        ensures within { result ≤ length self.entry.bytes.now }
        ensures enough { i < length (points_of self.entry)
            → result + point_size self.entry.width ≤ length self.entry.bytes.now }
    {
        match self.width {
            NumberWidth::Short => 4 * i,
            NumberWidth::Long => 8 * i,
        }
    }
}

/// The point whose first byte is at an offset.
fn point_at(bytes: &[u8], place: usize, width: NumberWidth) -> Point
    requires { place + point_size width ≤ length bytes.now }
    ensures { result ≡ first_point width (drop place bytes.now) }
{
    Point {
        x: signed_at(bytes, place, width),
        y: signed_at(bytes, place + width.size(), width),
    }
}
