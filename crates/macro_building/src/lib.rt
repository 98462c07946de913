//! A power grid built and signed off, whether over blocks or not: from the bytes of a technology, cells, a placed design, a script and
//! a bias file to the texts of the drawn grid, of its network, of a tight certificate and of the report.
//!
//! Where no grid over macros meets a block it is built as without blocks. Else the pins and obstructions of the macros are read out of
//! both LEF texts after all other texts, the grid is drawn over the blocks, and the pins of blocks count as straps in all but the
//! written design. The definitions stand in `specs/`.
#![tactic(auto)]

mod blocks;
mod drawing;
mod kinds;
mod laws;
mod network;
mod whole;

pub use laws::answers_to_builds;
pub use whole::build;
