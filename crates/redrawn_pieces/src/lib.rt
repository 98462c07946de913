//! The law that pieces of metal that are drawn again, each as a shape of its own, are the same pieces.
#![tactic(auto)]

mod laws;

pub use laws::redrawn_pieces_are_the_same;
