//! The blocks of a LEF library: of each macro its pins of power and ground and its obstructions, as rectangles on layers.
//!
//! `read_blocks` reads the text of one library (LEF/DEF 5.8 Language Reference) and passes over all but `MACRO` sections
//! with their `ORIGIN`, their pins of `USE POWER` or `USE GROUND` and their `OBS`; `Blocks::join` makes the blocks of two
//! libraries one record.
#![tactic(auto)]

mod act;
mod error;
mod fault;
mod format;
mod held;
mod join;
mod label;
mod laws;
mod number;
mod read;
mod record;
mod rule;
mod section;
mod sort;
mod standing;
mod value;

pub use error::{BlocksError, BlocksKind};
pub use laws::texts_have_one_record;
pub use number::COORDINATE_LIMIT;
pub use read::read_blocks;
pub use record::{BlockMacro, BlockPin, BlockRect, Blocks};
