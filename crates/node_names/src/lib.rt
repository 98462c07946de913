//! The names of a netlist's nodes, which are the same name in upper and in lower case: numbered as they come, and then
//! put in byte order in lower case.
//!
//! A `NodeNames` gives each new name the next number. `NodeNames::ordered` sorts the names once, at the end, and says
//! where each number went. Until then names are slices of the text that they stand in, and no name is copied.
#![tactic(auto)]

mod key;
mod names;

pub use names::{NodeNames, OrderedNodes};
