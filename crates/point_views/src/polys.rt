//! Lists of points: one, or several consecutive ones.

ghost use Rattle.std.specs.Prelude.{◌≡◌, ◌<◌, ◌↔◌, [], ◌∷◌, length, map, sum, IsTrue, IsSome, IsNone, IfSome, Some, slice_get};
ghost use Rattle.std.specs.List.{flat_map};
ghost use Rattle.point_views.specs.Counts.{counts_of};
ghost use Rattle.point_views.specs.Points.{points_of};
ghost use Rattle.point_views.specs.PassedOver.{after_empty};
ghost use Rattle.point_views.specs.Split.{split_by};

use crate::counts::Counts;
use crate::lists::Lists;
use crate::parted_points::PartedPoints;
use crate::points::Points;

/// Lists of points, as one record draws them: the single list of META_POLYGON or EMR_POLYGON, or the lists of
/// META_POLYPOLYGON or EMR_POLYPOLYGON.
#[derive(Clone, Copy, Debug, PartialEq, Eq)]
pub enum Polys<'a> {
    /// One list.
    One(Points<'a>),
    /// As many lists as there are counts.
    Parted(PartedPoints<'a>),
}

impl<'a> Polys<'a> {
    ghost use Rattle.point_views.specs.Polys.{lists_of};

    /// No lists.
    pub fn empty() -> Polys<'a>
        ensures { lists_of result ≡ [] }
    {
        Polys::Parted(PartedPoints::empty())
    }

    /// One list.
    pub fn one(points: Points<'a>) -> Polys<'a>
        ensures { lists_of result ≡ points_of points.entry ∷ [] }
    {
        Polys::One(points)
    }

    /// The points divided into consecutive lists, each with as many points as its count says. `None` exactly if the
    /// counts don't add up to the number of points.
    #[tactic(auto, using(crate::proofs::SplitLemmas::wholes))]
    pub fn new(counts: Counts<'a>, points: Points<'a>) -> Option<Polys<'a>>
        ensures complete { IsSome result ↔ (sum (counts_of counts.entry) ≡ length (points_of points.entry)) }
        ensures lists { IfSome result (λ polys. lists_of polys ≡ split_by (counts_of counts.entry) (points_of points.entry)) }

        // so, for the lists as a whole:
        ensures lengths { IfSome result (λ polys. map length (lists_of polys) ≡ counts_of counts.entry) }
        ensures joined { IfSome result (λ polys. flat_map (λ list. list) (lists_of polys) ≡ points_of points.entry) }
    {
        if counts.sum_within(points.len()) != Some(points.len()) {
            return None;
        }
        Some(Polys::Parted(PartedPoints::new(counts, points)))
    }

    /// The number of lists.
    pub fn len(self) -> usize
        ensures { result ≡ length (lists_of self.entry) }
    {
        match self {
            Polys::One(_) => 1,
            Polys::Parted(parted) => parted.len(),
        }
    }

    /// Whether there is no list.
    pub fn is_empty(self) -> bool
        ensures { IsTrue result ↔ (lists_of self.entry ≡ []) }
    {
        match self {
            Polys::One(_) => false,
            Polys::Parted(parted) => parted.is_empty(),
        }
    }

    /// All points, list after list.
    #[tactic(auto, using(crate::proofs::SplitLemmas::wholes))]
    pub fn points(self) -> Points<'a>
        ensures { points_of result ≡ flat_map (λ list. list) (lists_of self.entry) }
    {
        match self {
            Polys::One(points) => points,
            Polys::Parted(parted) => parted.points(),
        }
    }

    /// The list at an index. This adds up the counts before it: to go through the lists in order, use `lists` or
    /// `split_first`.
    pub fn get(self, k: usize) -> Points<'a>
        requires { k < length (lists_of self) }
        ensures { slice_get (lists_of self.entry) k ≡ Some (points_of result) }
    {
        match self {
            Polys::One(points) => points,
            Polys::Parted(parted) => parted.get(k),
        }
    }

    /// The first list, and the lists after it. `None` exactly if there is no list.
    pub fn split_first(self) -> Option<(Points<'a>, Polys<'a>)>
        ensures none { IsNone result ↔ (lists_of self.entry ≡ []) }
        ensures lists { IfSome result (λ split. lists_of self.entry ≡ points_of split.0 ∷ lists_of split.1) }
    {
        match self {
            Polys::One(points) => Some((points, Polys::empty())),
            Polys::Parted(parted) => {
                if parted.is_empty() {
                    return None;
                }
                let (first, rest) = parted.split_first();
                Some((first, Polys::Parted(rest)))
            }
        }
    }

    /// The lists from the first non-empty one on. Several empty lists are skipped at a time, while `split_first`
    /// returns them one by one.
    pub fn after_empty(self) -> Polys<'a>
        ensures { lists_of result ≡ after_empty (lists_of self.entry) }
    {
        match self {
            Polys::One(points) => {
                if points.is_empty() {
                    return Polys::empty();
                }
                self
            }
            Polys::Parted(parted) => Polys::Parted(parted.after_empty()),
        }
    }

    /// An iterator over the lists. Going through all of them reads each count once more.
    pub fn lists(self) -> Lists<'a>
        ensures { lists_of result.rest ≡ lists_of self.entry }
    {
        Lists { rest: self }
    }
}

// An operation that draws has one of these.
const _: () = prove!(size_of::<Polys<'static>>() <= 48);
