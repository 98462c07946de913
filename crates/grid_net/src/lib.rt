//! A power grid's network of resistors, pads and loads: which lists make one, what it holds, how far its nodes are
//! from its pads, and what a solution and a certificate of it are.
//!
//! The definitions stand in `specs/`: `Network` and its sums, `Building` (which network the lists make, and what
//! refuses them), `Level`, `Solution` (Ohm's law and Kirchhoff's current law; with shorts in `Shorted`), `Certificate`, and `Solver`. What only
//! the code's own proofs speak of stands in `specs/inside/`.
#![tactic(auto)]

mod around;
mod circuit;
mod error;
pub mod hostile;
mod laws;
mod level;
mod limits;
mod network;
mod note;
mod part;
mod refusal;
mod solver;
mod table;

pub use error::{NetError, Quantity};
pub use laws::{built_network, no_net_refusal, no_short_changes_nothing};
pub use limits::{
    GREATEST_FLOW, GREATEST_LOAD, GREATEST_RESISTANCE, GREATEST_VALUE, GREATEST_VOLTAGE,
    MOST_EXCESS, MOST_NODES, MOST_RESISTORS,
};
pub use network::Net;
pub use note::Note;
pub use part::{Load, LoadRange, Pad, Parts, Resistor};
pub use solver::{Fixed, Solver};
