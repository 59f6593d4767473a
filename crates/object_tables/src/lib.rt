//! The objects of a file, by their indexes.
//!
//! # What is promised
//!
//! - A table is a finite map from index to object. A new object gets the lowest free index (`LowestFree`, as in WMF) or
//!   the one that its record names (`Given`, as in EMF). It is rejected exactly if the definition says so
//!   (`Table::create`, by `create_fault` and `created_index`).
//! - There is one type for the tables of all formats (`FileTable`), which starts empty.
//! - An object is found and removed by its index, and the call fails exactly if there is none (`Table::get`,
//!   `Table::remove`).
//! - After a failure the objects are unchanged. An allocation can fail only if an index exceeds the capacity, and no
//!   call reduces the capacity (`Table::create`, `Table::reserve`).
//! - The lowest free index is free, and each one below it is in use (`lowest_free_law`). The index of a new object is
//!   below the table's bound (`created_index_law`). Objects are sorted by index, and stay so (`order_law`).
#![tactic(auto)]

mod file_table;
mod given;
mod laws;
mod lowest_free;
mod store;
mod table;

pub use file_table::{FileTable, full_slots};
pub use given::Given;
pub use laws::{created_index_law, lowest_free_law, order_law};
pub use lowest_free::{LowestFree, MAX_SLOTS};
pub use table::{Contents, Table};
