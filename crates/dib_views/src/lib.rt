//! Bitmaps (device-independent bitmaps, [MS-WMF] 2.2.2.9), read in place from a file's bytes.
//!
//! # What is promised
//!
//! - No read is outside the bytes, and no sum or product wraps, whatever the bytes are and whatever size and table a
//!   header claims (each function is proved safe for all its inputs).
//! - A bitmap is read, or rejected with the first fault in the format's order, exactly as the format says
//!   (`DibView::packed`, `DibView::parts`, by `packed_dib` and `parts_dib`).
//! - A view is a picture: its size, and each pixel's colour by its column and its row from the top (`DibView::width`,
//!   `height`, `colour`, and `picture_row` with `DibRow::colour`), whichever row is stored first (`order`,
//!   `bottom_up`).
//! - `DibView::row` returns all bytes of one row of the picture.
//!
//! A view is two slices of the file and a few numbers, so no pixel is copied and no memory is allocated. No contract
//! says so.
#![tactic(auto)]

mod fault;
mod header;
mod pixels;
mod row;
mod shape;
mod view;

pub use fault::DibFault;
pub use row::DibRow;
pub use shape::{BitCount, DibShape, RowOrder};
pub use view::DibView;
