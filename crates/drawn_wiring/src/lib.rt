//! The law that the DEF of a drawn grid reads back as the grid's own wiring.
#![tactic(auto)]

mod laws;

pub use laws::drawn_grids_read_back;
