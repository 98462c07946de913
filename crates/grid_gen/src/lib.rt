//! Made-up designs: a technology, its cells, a placed design, a script and a bias file, by a number and a side.
//!
//! The design has as many rows as its side says, and as many cells in each; the number picks the cells. The same number
//! and side give the same bytes everywhere. docs/GENERATOR.md shows the texts.
#![tactic(auto)]

mod bias;
mod design;
mod fixed;
mod inputs;
mod part;

pub use fixed::{CELLS, SCRIPT, TECHNOLOGY};
pub use inputs::{Inputs, generate};
