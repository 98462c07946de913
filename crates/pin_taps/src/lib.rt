//! The load taps of a design with blocks: a block draws its current through the pieces with metal of its pins that stacks join to the
//! grid, in equal shares, and every other component through the rails over it. `macro_taps` finds them. The definitions stand in
//! `specs/`.
#![tactic(auto)]

mod blocks;
mod ends;
mod feeding;
mod laws;
mod tapping;

pub use laws::stack_ends_are_junctions;
pub use tapping::macro_taps;
