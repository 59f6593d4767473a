//! Mapping surface pixels to source pixels along one axis.

ghost use Rattle.std.specs.Prelude.{◌≡◌, ◌<◌, ◌≤◌, ◌+◌, ◌*◌, ◌^◌, pos, ◌+ℤ◌, ◌≤ℤ◌, ◌<ℤ◌, IfSome, is_some, unsigned_abs};
ghost use Rattle.mapping.specs.Surface.{IsPlaceCoordinate};
ghost use Rattle.raster_ops.specs.Sources.{axis_read, distance, index_read, is_axis_inside, is_mirrored, scaled_place, mirrored_place};

use crate::rectangles::is_axis_inside;
use crate::sources::AxisReading;

impl AxisReading {
    ghost use Rattle.raster_ops.specs.Readers.{reading_of};

    /// How the box between two placed coordinates reads an extent of columns or rows, from `first` on, of a bitmap that
    /// has `length` of them. `None` exactly if the extent doesn't lie inside.
    pub(crate) fn new(first: i64, extent: i32, p: i32, q: i32, length: u32) -> Option<AxisReading>
        requires p { IsPlaceCoordinate p }
        requires q { IsPlaceCoordinate q }
        requires few { length ≤ 2 ^ 16 }
        ensures some { is_some result ≡ is_axis_inside first extent length }
        ensures reading { IfSome result (λ axis. reading_of axis ≡ axis_read first extent p q) }
        ensures within { IfSome result (λ axis. axis.first + axis.count ≤ length) }
    {
        if !is_axis_inside(first, extent, length) {
            return None;
        }
        Some(AxisReading {
            first: first as u32,
            count: extent.unsigned_abs(),
            near: p.min(q),
            side: distance(p, q),
            mirrored: is_mirrored(p, q, extent),
        })
    }

    /// The column or row of the bitmap that the surface's column or row `n` reads.
    pub(crate) fn index_at(self, n: u32) -> u32
        requires from { self.near ≤ℤ pos n }
        requires to { pos n <ℤ (self.near +ℤ pos self.side) }
        ensures index { result ≡ unsigned_abs (index_read (reading_of self) n) }
        ensures within { result < self.first + self.count }
    {
        let place = mirrored_place(self.mirrored, self.side, self.place(n));
        self.first + scaled_place(self.count, self.side, place)
    }

    /// The distance of a column or row of the surface from the first one of the box.
    pub(crate) fn place(self, n: u32) -> u32
        requires from { self.near ≤ℤ pos n }
        requires to { pos n <ℤ (self.near +ℤ pos self.side) }
        ensures place { result ≡ distance self.near (pos n) }
        ensures within { result < self.side }
    {
        (i64::from(n) - i64::from(self.near)) as u32
    }
}

/// The distance between two placed coordinates.
fn distance(p: i32, q: i32) -> u32
    requires p { IsPlaceCoordinate p }
    requires q { IsPlaceCoordinate q }
    ensures distance { result ≡ distance p q }
    ensures short { result ≤ 2 ^ 29 }
{
    (q - p).unsigned_abs()
}

/// Whether exactly one of the box's extent, from `p` to `q`, and the source's extent is negative.
fn is_mirrored(p: i32, q: i32, extent: i32) -> bool
    ensures { result ≡ is_mirrored p q extent }
{
    (q < p) != (extent < 0)
}

/// A position along the box, or, if mirrored, the position at the same distance from the other end.
pub(crate) fn mirrored_place(mirrored: bool, side: u32, place: u32) -> u32
    requires { place < side }
    ensures place { result ≡ mirrored_place mirrored side place }
    ensures within { result < side }
{
    if mirrored { side - 1 - place } else { place }
}

/// Which of `count` columns or rows contains the centre of a position along the box.
fn scaled_place(count: u32, side: u32, place: u32) -> u32
    requires some { 1 ≤ count }
    requires few { count ≤ 2 ^ 16 }
    requires short { side ≤ 2 ^ 29 }
    requires within { place < side }
    ensures place { result ≡ scaled_place count side place }
    ensures within { result < count }
{
    (middle(count, place) / (2 * u64::from(side))) as u32
}

/// The centre of a position, times a count, in halves.
pub(crate) fn middle(count: u32, place: u32) -> u64
    requires few { count ≤ 2 ^ 16 }
    requires near { place < 2 ^ 29 }
    ensures { result ≡ (2 * place + 1) * count }
{
    (2 * u64::from(place) + 1) * u64::from(count)
}
