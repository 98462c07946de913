//! The bias file: the potentials of the supply nets, how far their nodes may be from these, where the pads stand, and
//! what the cells draw.
//!
//! A bias file is lines of words: `supply NET V`, `droplimit NET V`, `pad NET LAYER x y`, `cell MACRO LOW HIGH` and
//! `instance NAME LOW HIGH`, of which the last two may have one number for both ends. A word that begins with `#` makes
//! a comment to the end of its line, and empty lines are passed over. `read_bias` reads it.
#![tactic(auto)]

mod error;
mod fault;
mod format;
mod held;
mod laws;
mod number;
mod read;
mod record;
mod rule;
mod section;
mod sort;
mod value;

pub use error::{BiasError, BiasKind};
pub use laws::texts_have_one_bias;
pub use number::{AMPERES_LIMIT, PLACE_LIMIT, VOLTS_LIMIT};
pub use read::read_bias;
pub use record::{Amps, Bias, DropLimit, PadAt, Supply};
