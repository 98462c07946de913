//! Makes a tight certificate of a network out of whatever a solver proposes, or the high list of one network and the low list of
//! another one. It always succeeds.
//!
//! What is promised stands in `specs/`: `Scale` (the network's own numbers, and the range of its lists) and `Certifier`
//! (the starts of the two lists, and how the answer stands to them), and `Halves` (what is asked of one list alone). How the lists are moved stands in `specs/inside/`.
#![tactic(auto)]

mod certifier;
mod flow;
mod half;
mod make;
mod phase;
mod scale;
mod step;
mod two_nets;
mod work_list;

pub use certifier::{Certifier, region_for};
pub use two_nets::certify_halves;
