//! The cells of a LEF library: its sites and its macros, with their sizes.
//!
//! `read_cells` reads the text of one library (LEF/DEF 5.8 Language Reference) and passes over all but `SITE` and
//! `MACRO` sections with their `SIZE` and `CLASS`; `Cells::join` makes the cells of two libraries one record.
#![tactic(auto)]

mod error;
mod fault;
mod format;
mod held;
mod join;
mod laws;
mod number;
mod read;
mod record;
mod rule;
mod section;
mod sort;
mod value;

pub use error::{CellsError, CellsKind};
pub use laws::texts_have_one_record;
pub use number::LENGTH_LIMIT;
pub use read::read_cells;
pub use record::{Cells, MacroCell, Site};
