//! The wiring of a DEF: its generated vias, and the wires of its power and ground nets.
//!
//! `read_wires` reads the sections VIAS and SPECIALNETS of a design (LEF/DEF 5.8 Language Reference), as another tool may
//! have written them, and passes over all others.
#![tactic(auto)]

mod act;
mod error;
mod fault;
mod format;
mod held;
mod label;
mod laws;
mod number;
mod path;
mod read;
mod record;
mod rule;
mod section;
mod sort;
mod standing;
mod via;
mod wire;

pub use error::{WiresError, WiresKind};
pub use laws::{texts_have_one_wiring, whole_wires_are_read, written_wires_are_read};
pub use number::WIRE_LIMIT;
pub use read::read_wires;
pub use record::{Segment, ViaDef, ViaPlace, WiredNet, Wires};
