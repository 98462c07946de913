//! What the halos of blocks leave of the shapes of grids.
#![tactic(auto)]

mod cutting;
mod laws;
mod shape;

pub use cutting::cut_shapes;
pub use laws::{cuts_leave_parts, one_cut};
pub use shape::GridShape;
