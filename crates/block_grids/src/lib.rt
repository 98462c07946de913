//! Which placed components are blocks, which grid over macros each has, and how far that grid keeps other grids away.
#![tactic(auto)]

mod block;
mod choice;
mod finding;
mod halo;
mod orient;

pub use block::BlockAt;
pub use finding::{blocks_of, has_blocks, is_block, macros};
pub use halo::{Halo, HaloError, halos_of};
