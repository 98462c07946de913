//! A power grid built and signed off: from the bytes of a technology, cells, a placed design, a script and a bias file to
//! the texts of the drawn grid, of its network, of a tight certificate and of the report.
//!
//! The order is: the texts are read, the grid is drawn, it is signed off, which is to extract its network, to test the
//! supply and to certify the network out of what a solver proposes, and all texts are made before anything is written. The definitions stand in
//! `specs/`.
#![tactic(auto)]

mod drawing;
mod input;
mod kinds;
mod laws;
mod outputs;
mod read_texts;
mod records;
mod whole;

pub use drawing::undrawn;
pub use input::{Input, Inputs};
pub use laws::answers_to_designs;
pub use outputs::Outputs;
pub use read_texts::{bias_of, joined_cells, placed_of, read_all, refused, tech_of};
pub use records::Records;
pub use whole::{basis_of, build, build_of, outputs_with};
