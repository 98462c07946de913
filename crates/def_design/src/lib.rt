//! A placed design in DEF: its die, rows, components, blockages and regions.
//!
//! `read_design` reads the text of one design (LEF/DEF 5.8 Language Reference, "DEF Syntax"), and passes over what a
//! drawing of its power grid does not ask for. A design whose special nets have wires is refused. `read_placed` passes over
//! the wires too.
#![tactic(auto)]

mod blockages;
mod components;
mod corners;
mod error;
mod fault;
mod format;
mod held;
mod kinds;
mod laws;
mod number;
mod question;
mod read;
mod record;
mod regions;
mod rows;
mod top;
mod value;

pub use error::{DefError, DefKind, Item};
pub use laws::{texts_have_one_design, texts_have_one_placed_design};
pub use number::{NUMBER_LIMIT, UNITS_LIMIT};
pub use read::{read_design, read_placed};
pub use record::{Blockage, Component, Design, Fence, Row};
