//! Two texts judged: a netlist and a certificate, from their bytes to the answer.
//!
//! The netlist is read and its shorts are merged; the certificate is read for the names of the groups, and tested on the
//! merged network. The definitions stand in `specs/`: `Texts`, `Judging`, and `Stage` of the netlist alone.
#![tactic(auto)]

mod laws;
mod network;
mod refused;
mod tested;
mod texts;

pub use laws::{answers_to_texts, netlists_are_merged_once, texts_are_judged_once};
pub use network::read_network;
pub use texts::judge;
