//! The names of a netlist's nodes: numbered as they come, and then put in byte order.
//!
//! A `NameTable` gives each new name the next number. `NameTable::ordered` sorts the names once, at the end, and says
//! where each number went. Names are slices of the text that they stand in, and no name is copied.
#![tactic(auto)]

mod key;
mod order;
mod table;

pub use order::one_order;
pub use table::{MOST_NAMES, NameError, NameTable, OrderedNames};
