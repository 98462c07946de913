//! Laws of the texts of a network that is extracted from a drawn grid: its netlist reads back, and where a certificate
//! of the network holds, whoever checks the two texts finds that it does.
#![tactic(auto)]

mod laws;

pub use laws::{checked_as_written, extracted_networks_can_be_written};
