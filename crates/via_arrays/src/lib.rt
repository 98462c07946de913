//! Arrays of cuts that join two routing layers, stacks of them, and their resistances.
#![tactic(auto)]

mod arrays;
mod choice;
mod cuts;
mod error;
mod extents;
mod laws;
mod lengths;
mod pairs;
mod parts;
mod resistances;
mod stacks;

pub use arrays::array;
pub use choice::choose_rule;
pub use error::{ArrayError, StackError};
pub use laws::{
    counts_by_division, one_array_or_refusal, one_first_rule, one_resistance, one_stack_or_refusal,
};
pub use lengths::{MOST_UNITS, PICOMETRES};
pub use parts::{CutArray, Stack};
pub use resistances::resistance;
pub use stacks::stack;
