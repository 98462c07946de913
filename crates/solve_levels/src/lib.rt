//! The levels of a multilevel solver, in whole numbers alone and in cells that are lent: nodes of few edges are taken out
//! exactly, the rest is grouped level by level, and conjugate gradients solve it with a cycle over the levels as the
//! preconditioner. docs/SOLVER.md tells the method.
//!
//! Nothing is promised of the numbers that come out. What is proved is that each function is safe and returns, whatever
//! stands in the words: a place outside them reads as 0, and sums wrap.
#![tactic(auto)]

mod cycle;
mod edges;
mod elimination;
mod exchange;
mod gradients;
mod graph;
mod groups;
mod level;
mod lists;
mod nearest;
mod numbers;
mod rest;
mod stack;
mod star;
mod sweeps;
mod words;

pub use cycle::{Effort, Solved};
pub use edges::Edge;
pub use elimination::Left;
pub use graph::{EdgeList, Graph};
pub use level::{Level, Rest};
pub use lists::{Column, Pairs, Wides};
pub use nearest::spread_pads;
pub use numbers::{Scaled, shifted, wide_bits_of};
pub use stack::{Plan, Stack};
pub use words::Words;
