//! Iterating over lists of points.

ghost use Rattle.std.specs.Iterator.{YieldsFirstBy, item_count};
ghost use Rattle.point_views.specs.Points.{points_of};
ghost use Rattle.point_views.specs.Polys.{lists_of};

use crate::points::Points;
use crate::polys::Polys;

/// The remaining lists, in order.
#[derive(Clone, Copy, Debug, PartialEq, Eq)]
pub struct Lists<'a> {
    pub rest: Polys<'a>,
}

impl<'a> Iterator for Lists<'a> {
    type Item = Points<'a>;

    ghost next_gives = { YieldsFirstBy points_of (λ lists. lists_of lists.rest) };

    ghost remaining = { item_count (λ lists. lists_of lists.rest) };

    fn next(&mut self) -> Option<Points<'a>> {
        let (first, rest) = self.rest.split_first()?;
        self.rest = rest;
        Some(first)
    }
}
