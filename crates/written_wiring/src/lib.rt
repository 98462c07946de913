//! The law that a written power grid reads back.
//!
//! `written_grids_read_back` is a function that does nothing, whose contract is this law: reading the DEF that is written
//! of a grid (LEF/DEF 5.8 Language Reference, VIAS and SPECIALNETS) gives the grid's own vias, pieces of metal and arrays
//! of stacks. `written_grids_have_wires` says the same of the reader of wiring that any tool may have written: it finds the
//! grid's own vias, and net by net its segments and the vias of its stacks.
#![tactic(auto)]

mod laws;

pub use laws::{written_grids_have_wires, written_grids_read_back};
