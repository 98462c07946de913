//! The wiring of a grid as DEF, read back.
//!
//! `read_wiring` reads the texts that are written of power grids (LEF/DEF 5.8 Language Reference, "DEF Syntax": VIAS and
//! SPECIALNETS) in exactly the form in which they are written, but for white space and comments: the vias, the pieces of
//! metal and the lines of stacks, each as the words and numbers that stand there.
#![tactic(auto)]

mod error;
mod fault;
mod format;
mod held;
mod laws;
mod number;
mod read;
mod record;
mod rule;
mod section;
mod sort;
mod taking;
mod unit;

pub use error::{WiringError, WiringKind};
pub use laws::{texts_have_one_wiring, whole_wirings_are_read, written_wirings_read_back};
pub use number::{NUMBER_LIMIT, UNITS_LIMIT};
pub use read::read_wiring;
pub use record::{PlaceText, ViaText, WireText, Wiring};
