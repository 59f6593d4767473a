//! Lists that consist of one line.

ghost use Rattle.std.specs.Prelude.{◌≡◌, [], ◌∷◌, Some, IfSome};
ghost use Rattle.mapping.specs.declared.geometry.Point.{Point};
ghost use Rattle.point_views.specs.Points.{points_of};
ghost use Rattle.point_views.specs.Polys.{lists_of};

use mapping::Point;
use point_views::{Points, Polys};

/// The ends of a line, exactly if the lists are a single list of two points. Such a line is painted step by step,
/// without rows.
pub(crate) fn lone_line(lists: Polys<'_>) -> Option<(Point, Point)>
    ensures line { IfSome result (λ line. lists_of lists.entry ≡ (line.0 ∷ line.1 ∷ []) ∷ []) }
    ensures each { (from to : Point) → lists_of lists.entry ≡ (from ∷ to ∷ []) ∷ [] → result ≡ Some (from, to) }
{
    let Some((points, rest)) = lists.split_first() else {
        return None;
    };
    if rest.is_empty() {
        two_points(points)
    } else {
        None
    }
}

/// Both points, exactly if there are two.
fn two_points(points: Points<'_>) -> Option<(Point, Point)>
    ensures points { IfSome result (λ line. points_of points.entry ≡ line.0 ∷ line.1 ∷ []) }
    ensures each { (from to : Point) → points_of points.entry ≡ from ∷ to ∷ [] → result ≡ Some (from, to) }
{
    let Some((from, rest)) = points.split_first() else {
        return None;
    };
    let Some((to, rest)) = rest.split_first() else {
        return None;
    };
    if !rest.is_empty() {
        return None;
    }
    Some((from, to))
}
