//! Solvers, which propose the lists from which a certificate is made. They tell nothing of what they propose: a
//! certificate never rests on it. Each returns, takes no memory, keeps the region's number of cells and counts its
//! proposals.
//!
//! `Multilevel` is the one that is fast; docs/SOLVER.md tells how it works. `clusters` finds what is tied together far more
//! strongly than to the rest, and `parts` the networks between and inside them; `assembly` makes a network a graph of
//! conductances, the crate `solve_levels` makes the levels and solves, and `refinement` corrects both lists by the
//! certificate's own sums.
#![tactic(auto)]

mod assembly;
mod clusters;
mod kept;
mod multilevel;
mod null;
mod parts;
mod plain;
mod print;
mod refinement;

pub use multilevel::Multilevel;
pub use null::Null;
pub use plain::Plain;

#[cfg(test)]
mod tests;
