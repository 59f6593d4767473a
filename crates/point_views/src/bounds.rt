//! The bounding box of the points in a list.

ghost use Rattle.std.specs.Prelude.{◌≡◌, ◌↔◌, [], IsNone, IfSome};
ghost use Rattle.mapping.specs.Boxes.{IsTight};
ghost use Rattle.point_views.specs.Points.{points_of};

use crate::points::Points;
use mapping::{Rect, box_law};

impl<'a> Points<'a> {
    /// The bounding box of the points; right and bottom are inclusive. `None` exactly if there is no point.
    pub fn bounds(self) -> Option<Rect>
        ensures none { IsNone result ↔ (points_of self.entry ≡ []) }
        ensures tight { IfSome result (λ bounds. IsTight bounds (points_of self.entry)) }
    {
        box_law();
        if self.is_empty() {
            return None;
        }
        let mut bounds = Rect::around(self.get(0));
        for index in 1..self.len() {
            bounds = bounds.with(self.get(index));
        }
        Some(bounds)
    }
}
