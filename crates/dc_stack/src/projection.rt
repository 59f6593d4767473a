//! Projections of page points to a surface.

ghost use Rattle.std.specs.Prelude.{◌≡◌, IsTrue};

use mapping::{PageMap, Place, Point, limits_law};

/// A projection of page points: by a page map to the plane, and from there to a surface.
#[derive(Clone, Copy, Debug, PartialEq, Eq)]
pub struct Projection {
    pub map: PageMap,
    pub place: Place,
}

impl Projection {
    ghost use Rattle.dc_stack.specs.Projected.{is_projected, projected};

    /// The position of a page point that lands within the limits.
    pub fn at(&self, point: Point) -> Point
        requires { IsTrue (is_projected self.now point) }
        ensures { result ≡ projected self.now point }
    {
        if self.map.one_to_one {
            limits_law();
            return self.place.at(self.map.moved(point));
        }
        self.scaled_at(point)
    }

    /// The same for any map. Neither this nor `fine_at` is inlined, so that each call is the last step of its caller and
    /// costs nothing elsewhere.
    #[inline(never)]
    fn scaled_at(&self, point: Point) -> Point
        requires { IsTrue (is_projected self.now point) }
        ensures { result ≡ projected self.now point }
    {
        if self.map.parts == 1 {
            limits_law();
            return self.place.at(self.map.at_in_units(point));
        }
        self.fine_at(point)
    }

    /// The same where a unit of the device may have several parts.
    #[inline(never)]
    fn fine_at(&self, point: Point) -> Point
        requires { IsTrue (is_projected self.now point) }
        ensures { result ≡ projected self.now point }
    {
        limits_law();
        self.place.at(self.map.at_in_parts(point))
    }
}
