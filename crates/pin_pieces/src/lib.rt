//! The pieces of a grid that bear the pins of blocks.
#![tactic(auto)]

mod finding;
mod found;
mod order;
mod pin;
mod shared;

pub use finding::pin_pieces;
pub use pin::PinPiece;
