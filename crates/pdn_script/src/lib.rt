//! The script of a power grid: its voltage domains, its grids, and the stripes, rings and connects of these.
//!
//! A script has the commands of OpenROAD's PDN module, in the subset of the crate `script_options`, whose table says
//! which options a command has and what their values are. `read_script` reads it.
#![tactic(auto)]

mod error;
mod fault;
mod field;
mod format;
mod given;
mod held;
mod known;
mod late;
mod laws;
mod names;
mod read;
mod record;
mod rule;
mod section;
mod sort;
mod statement;
mod text;
mod value;

pub use error::{ScriptError, ScriptKind};
pub use laws::texts_have_one_script;
pub use read::read_script;
pub use record::{Connect, Domain, GridRule, Ring, Script, Start, Stripe};
