//! The rails along the rows of cells.
#![tactic(auto)]

mod drawing;
mod row;
mod rule;

pub use drawing::rails;
pub use row::RowBox;
pub use rule::RailRule;
