//! Netlists and networks: a netlist read as a network whose nodes stand in the byte order of their names, and a network
//! written as a netlist.
//!
//! The form of a netlist is that of the IBM power grid benchmarks (S. R. Nassif, "Power Grid Analysis Benchmarks",
//! ASP-DAC 2008), which SPICE reads: resistors, voltage sources to ground and current sources to ground. Units:
//! nano-ohms, yoctovolts and femtoamperes. The cards are read by `spice_cards`.
#![tactic(auto)]

mod caps;
mod error;
mod laws;
mod named;
mod netlist;
mod place;
mod written;

pub use capacitors::{Cap, End};
pub use error::{NetRefusal, SpiceError, SpiceKind};
pub use laws::{names_are_words, texts_have_one_netlist};
pub use named::Named;
pub use netlist::read_netlist;
pub use written::netlist_text;
