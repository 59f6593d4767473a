//! Lists of points, and lists of such lists, read in place from a file's bytes.
//!
//! # What is promised
//!
//! - No read is outside the bytes, and no sum or product wraps, whatever the bytes are and whatever number of points a
//!   file claims (each function is proved safe for all its inputs).
//! - A number that lies in a prefix of some bytes reads the same there as in all of them (`number_law`).
//! - A view is a list: `Points::get` returns the i-th pair of numbers in the bytes, `part` a part of the list, and
//!   `len` its length.
//! - `Points::bounds` is the bounding box of the points.
//! - `Polys::new` divides points into consecutive lists with the lengths that the counts give, and the lists together
//!   are all of the points. `get`, `split_first` and `lists` return these lists in order.
//! - A view is rejected exactly if bytes are missing (`Points::new16`, `Points::new32`, `Counts::new16`,
//!   `Counts::new32`), or if the counts don't add up to the number of points (`Polys::new`).
//! - `Counts::sum_within` is the sum of the counts; it returns nothing exactly if that exceeds a limit.
//!
//! A view is a slice of the file and a few numbers, so no point is copied and no memory is allocated. No contract says
//! so.
#![tactic(auto)]

mod bounds;
mod counts;
mod laws;
mod lists;
mod numbers;
mod parted_points;
mod points;
mod polys;
mod zeros;

pub use counts::Counts;
pub use laws::number_law;
pub use lists::Lists;
pub use numbers::{NumberWidth, i8_at, i16_at, i32_at, u8_at, u16_at, u32_at};
pub use parted_points::PartedPoints;
pub use points::Points;
pub use polys::Polys;
