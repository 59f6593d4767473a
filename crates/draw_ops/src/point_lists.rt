//! Lists of points in a record.

ghost use Rattle.std.specs.Prelude.{◌≡◌, ◌+◌, ◌*◌, ◌≤◌, OnSome, length};
ghost use Rattle.std.specs.Option.{option_map};
ghost use Rattle.point_views.specs.Counts.{counts_of};
ghost use Rattle.point_views.specs.Numbers.{number_size, point_size};
ghost use Rattle.point_views.specs.Points.{points_of};
ghost use Rattle.draw_ops.specs.PointLists.{counts_at, points_at};

use point_views::{Counts, NumberWidth, Points};

/// This many points, from an offset on. `None` exactly if the bytes after the offset don't contain them.
pub fn points_at(width: NumberWidth, count: usize, bytes: &[u8], place: usize) -> Option<Points<'_>>
    requires { place ≤ length bytes.now }
    ensures value { points_at width count bytes.entry.now place ≡ option_map points_of result }
    ensures within { OnSome result (place + point_size width * count ≤ length bytes.entry.now) }
{
    match width {
        NumberWidth::Short => Points::new16(&bytes[place..], count),
        NumberWidth::Long => Points::new32(&bytes[place..], count),
    }
}

/// This many counts, from an offset on. `None` exactly if the bytes after the offset don't contain them.
pub fn counts_at(width: NumberWidth, count: usize, bytes: &[u8], place: usize) -> Option<Counts<'_>>
    requires { place ≤ length bytes.now }
    ensures value { counts_at width count bytes.entry.now place ≡ option_map counts_of result }
    ensures within { OnSome result (place + number_size width * count ≤ length bytes.entry.now) }
{
    match width {
        NumberWidth::Short => Counts::new16(&bytes[place..], count),
        NumberWidth::Long => Counts::new32(&bytes[place..], count),
    }
}
