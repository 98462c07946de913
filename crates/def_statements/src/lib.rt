//! The statements of a placed design in DEF: the sorts of its words, its sections, the patterns of its units, and where
//! a unit leads (LEF/DEF 5.8 Language Reference, "DEF Syntax").
//!
//! Nothing here says what a unit means or why it is refused. A reader of the design and one of its wiring stand on it.
#![tactic(auto)]

mod pattern;
mod section;
mod sort;
mod standing;
mod unit;

pub use pattern::rule;
pub use section::Section;
pub use sort::{Sort, is_the, sort_of};
pub use standing::Standing;
pub use unit::{begins, last_sort, last_text, sort_at, text_at};
