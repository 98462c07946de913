//! A power grid written as DEF.
//!
//! `def_text` writes the vias and the special nets of a grid in the form of the LEF/DEF 5.8 Language Reference ("DEF
//! Syntax"), as other tools read it: arrays of cuts as generated vias, pieces of metal as special wiring with their
//! shapes, and a line for each array of each stack.
#![tactic(auto)]

mod line;
mod net;
mod text;
mod via;
mod vias;
mod wiring;

pub use text::def_text;
pub use via::Via;
