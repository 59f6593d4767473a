//! The playing state: selected objects, the object table, saved states, settings, page map, clip and path.
//!
//! # What is promised
//!
//! - A machine starts as its file does, with no object, no saved state and no path (`Machine::new`, `restart`).
//! - Each step either returns the first fault, as the definition says, and changes nothing, or goes to the next state
//!   (`Machine::step`, by `fault_of` and `next`).
//! - What a step draws is the operation's drawing, with the current objects and modes (`Machine::step`, `dc`).
//! - All points of a drawing land within the limits, each where the definitions say, and its bounds are the bounding
//!   box of its points (`Machine::step`, `Projection::at`).
//! - The pieces of a painted path can be borrowed until the next step is accepted, and they define the path's figures
//!   (`Machine::step`, `painted`).
//! - An allocation can fail only if the capacity isn't enough, and no call reduces the capacity (`Machine::step`,
//!   `reserve`).
//! - The needs are the greatest of all steps since the start (`Machine::needs`).
//! - The clip of a machine contains a pixel exactly if the definition says so (`Machine::dc`, `Clip::has`).
//! - Where the rules don't allow it, a selected object can't be deleted, and a deletion only takes an object from the
//!   table. Where they do, what has the object selected keeps its values, without its index, and the deletion is counted
//!   (`deletion_law`, `Machine::held_deletions`).
//! - Only two faults depend on the surface: being off the plane and having a nib that is too wide. An operation without
//!   a fault on a surface has none on a smaller one. With a fault it has the same one on each larger surface, except
//!   that a nib that is too wide may be off the plane there (`fault_law`).
//! - A step returns the bounding box on the plane of all points that it places, which decides whether they land on
//!   another surface (`Machine::plane_extent`, `fits`).
#![tactic(auto)]

mod clip;
mod dc;
mod draw;
mod laws;
mod lone_line;
mod machine;
mod modes;
mod needs;
mod path;
mod piece;
mod piece_adding;
mod piece_landing;
mod placing;
mod plane_box;
mod point_count;
mod projection;
mod saved;
mod selected;
mod stock;

pub use clip::{Clip, ClipBox};
pub use dc::Dc;
pub use draw::{Draw, FigurePoints, Mark, Painting, PlaneBlit};
pub use laws::{deletion_law, fault_law};
pub use machine::{MAX_SAVED_STATES, Machine};
pub use modes::Modes;
pub use needs::Needs;
pub use path::MAX_PIECES;
pub use piece::{FigureEnd, Piece, PiecePoints, Verb};
pub use plane_box::fits;
pub use projection::Projection;
pub use selected::Selected;
