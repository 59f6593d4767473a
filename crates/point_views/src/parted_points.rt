//! Points divided into lists.

ghost use Rattle.std.specs.Prelude.{◌≡◌, ◌%◌, ◌<◌, ◌↔◌, [], ◌∷◌, length, sum, IsTrue, Some, slice_get};
ghost use Rattle.point_views.specs.Numbers.{number_size, point_size};
ghost use Rattle.point_views.specs.Counts.{all_counts_in, counts_of};
ghost use Rattle.point_views.specs.Points.{all_points_in, points_of};

use crate::counts::Counts;
use crate::numbers::NumberWidth;
use crate::points::Points;

/// Points divided into consecutive lists, each with as many points as its count says. The fields of a `Counts` and a
/// `Points` are stored separately, because each of these would pad its width to a whole word.
///
/// # Guarantees
///
/// - `count_bytes` contains the counts and nothing else, and `point_bytes` the points.
/// - The counts add up to the number of points.
#[derive(Clone, Copy, Debug, PartialEq, Eq)]
pub struct PartedPoints<'a> {
    /// The counts' bytes.
    pub count_bytes: &'a [u8],
    /// The points' bytes.
    pub point_bytes: &'a [u8],
    /// The width of each count.
    pub count_width: NumberWidth,
    /// The width of each coordinate.
    pub point_width: NumberWidth,
    pub ghost whole_counts: { length count_bytes.now % number_size count_width ≡ 0 },
    pub ghost whole_points: { length point_bytes.now % point_size point_width ≡ 0 },
    pub ghost complete: { sum (all_counts_in count_width count_bytes.now) ≡ length (all_points_in point_width point_bytes.now) },
}

#[tactic(auto, using(crate::proofs::SplitLemmas::splits, crate::proofs::SplitLemmas::sums, crate::proofs::PointLemmas::points))]
impl<'a> PartedPoints<'a> {
    ghost use Rattle.point_views.specs.PartedPoints.{parts_of};
    ghost use Rattle.point_views.specs.PassedOver.{after_empty};
    ghost use Rattle.point_views.specs.Split.{split_by};

    /// The points, divided as the counts say.
    pub(crate) fn new(counts: Counts<'a>, points: Points<'a>) -> PartedPoints<'a>
        requires complete { sum (counts_of counts) ≡ length (points_of points) }
        ensures { parts_of result ≡ split_by (counts_of counts.entry) (points_of points.entry) }
    {
        PartedPoints {
            count_bytes: counts.bytes,
            point_bytes: points.bytes,
            count_width: counts.width,
            point_width: points.width,
        }
    }

    /// No points, divided into no lists.
    pub(crate) fn empty() -> PartedPoints<'a>
        ensures { parts_of result ≡ [] }
    {
        PartedPoints::new(Counts::empty(), Points::empty())
    }

    /// The number of points in each list.
    pub fn counts(self) -> Counts<'a>
        ensures { counts_of result ≡ all_counts_in self.entry.count_width self.entry.count_bytes.now }
    {
        Counts {
            bytes: self.count_bytes,
            width: self.count_width,
        }
    }

    /// All points, list after list.
    pub fn points(self) -> Points<'a>
        ensures { points_of result ≡ all_points_in self.entry.point_width self.entry.point_bytes.now }
    {
        Points {
            bytes: self.point_bytes,
            width: self.point_width,
        }
    }

    /// The number of lists.
    pub(crate) fn len(self) -> usize
        ensures { result ≡ length (parts_of self.entry) }
    {
        self.counts().len()
    }

    /// Whether there is no list.
    pub(crate) fn is_empty(self) -> bool
        ensures { IsTrue result ↔ (parts_of self.entry ≡ []) }
    {
        self.counts().is_empty()
    }

    /// The list at an index.
    pub(crate) fn get(self, k: usize) -> Points<'a>
        requires { k < length (parts_of self) }
        ensures { slice_get (parts_of self.entry) k ≡ Some (points_of result) }
    {
        let counts = self.counts();
        let start = counts.sum_before(k);
        self.points().part(start, start + counts.get(k) as usize)
    }

    /// The first list, and the lists after it.
    pub(crate) fn split_first(self) -> (Points<'a>, PartedPoints<'a>)
        requires { 0 < length (parts_of self) }
        ensures { parts_of self.entry ≡ points_of result.0 ∷ parts_of result.1 }
    {
        let counts = self.counts();
        let points = self.points();
        let end = counts.get(0) as usize;
        let after = points.part(end, points.len());
        let rest = PartedPoints::new(counts.after_first(), after);
        (points.part(0, end), rest)
    }

    /// The lists from the first non-empty one on.
    pub(crate) fn after_empty(self) -> PartedPoints<'a>
        ensures { parts_of result ≡ after_empty (parts_of self.entry) }
    {
        PartedPoints::new(self.counts().after_zeros(), self.points())
    }
}

// A piece of a path has one of these and a page map.
const _: () = prove!(size_of::<PartedPoints<'static>>() <= 40);
