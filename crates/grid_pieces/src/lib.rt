//! The metal of a grid: the pieces into which blockages cut what is drawn, and the test that nothing touches.
#![tactic(auto)]

mod blockages;
mod cover;
mod cutting;
mod error;
mod grid;
mod line;
mod line_cut;
mod metal;
mod open;
mod piece;
mod place;
mod touch;

pub use cutting::pieces;
pub use error::{Counted, DrawError};
pub use grid::{DomainAt, Grid};
pub use line::Line;
pub use metal::Metal;
pub use piece::{Block, Piece, StackAt};
pub use touch::{Touching, first_touch};
