//! The wiring that another tool drew, with places for the names of its nets, layers, rules and vias.
#![tactic(auto)]

mod error;
mod number;
mod pair;
mod record;
mod resolve;
mod segment;
mod spot;
mod tables;
mod unknown;
mod via;

pub use error::NameError;
pub use record::{NamedVia, NamedWires, Spot};
pub use resolve::named;
