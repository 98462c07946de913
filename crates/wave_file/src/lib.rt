//! The wave file: which current each group of nodes draws from which time step on.
//!
//! A wave file is lines of words: `at STEP NODE I` and `at STEP NODE LOW HIGH`, where NODE is the name of a group of the
//! merged network. From the step on the load of that group is this range. The steps do not fall from line to line, and
//! empty lines are passed over. `read_waves` reads it.
#![tactic(auto)]

mod error;
mod fault;
mod format;
mod groups;
mod held;
mod laws;
mod number;
mod read;
mod record;
mod rule;
mod section;
mod sort;
mod spots;
mod value;

pub use error::{WavesError, WavesKind};
pub use laws::texts_have_one_waves;
pub use number::{AMPERES_LIMIT, MOST_STEPS};
pub use read::{read_group_waves, read_waves};
pub use record::{Change, Waves};
