//! What refuses wiring that another tool drew before its stacks are looked for: layers, sizes, widths and resistances of its
//! vias and segments, and how many there are.
#![tactic(auto)]

mod error;
mod number;
mod resistance;
mod segment;
mod used;
mod via;
mod within;

pub use error::{LimitError, WireCount};
pub use resistance::per_cut;
pub use within::{MOST_SEGMENTS, MOST_SIZE, MOST_VIAS, check_limits};
