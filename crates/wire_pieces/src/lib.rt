//! The metal of wiring that another tool drew: its pieces, each along its own axis, and which places lie on their centre
//! lines.
#![tactic(auto)]

mod axis;
mod centre;
mod pieces;

pub use centre::CentreLines;
pub use pieces::wire_pieces;
