//! The power grid of a design with grids over macros: what a script draws over its blocks, around them and through their pins.
//!
//! Straps and rings of a grid over macros lie over the outline of each block that has the grid; shapes of other grids keep away from
//! the block, with its halo, on its layers; its obstructions block metal; and its pins join the grid as straps that are there
//! already. `macro_draw` makes the grid. The definitions stand in `specs/`.
#![tactic(auto)]

mod bare;
mod copies;
mod cutting;
mod drawing;
mod error;
mod joining;
mod laying;
mod lengths;
mod merging;
mod obstructed;
mod record;

pub use drawing::macro_draw;
pub use error::MacroError;
pub use record::MacroGrid;
