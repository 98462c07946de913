//! From a drawn grid with its pads and load taps to the network of resistors.
//!
//! The definitions stand in `specs/`: `Drawing` (the junctions along the pieces), `Asked` (which grid, pads and taps a
//! network is made of), `Nodes` (the nodes and their names), `Segments` (one resistor for each two neighbouring junctions
//! and for each array of cuts), `Layers` (the layer lines) and `Network` (all of it, and what refuses it). What only the
//! code's own proofs speak of stands in `specs/inside/`.
#![tactic(auto)]

mod asked;
mod branch;
mod error;
mod extracted;
mod extraction;
mod junction;
mod key;
mod laws;
mod named;
mod nodes;
mod note;
mod number;
mod numbered_names;
mod order;
mod pad;
mod place;
mod question;
mod row;
mod segment;
mod sorted;
mod spot;

pub use asked::is_drawing;
pub use branch::Branch;
pub use error::ExtractError;
pub use extracted::Extracted;
pub use extraction::network;
pub use key::Key;
pub use laws::{ends_are_nodes, names_differ, one_network_or_refusal, one_rule_of_resistance};
pub use pad::{PadOn, Tap};
pub use segment::Segment;
