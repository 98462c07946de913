//! Where the pads and the load taps of a drawn grid stand: `pads` for the pad lines of a bias file, and `taps` for the
//! components of a design that draw a current.
#![tactic(auto)]

mod column;
mod line;
mod named;
mod on_piece;
mod rail;
mod range;
mod standing;
mod supply;
mod tapping;

pub use column::Column;
pub use line::without_cell;
pub use range::Range;
pub use standing::pads;
pub use tapping::{Seat, TapTables, add_taps, range_in, seat_of, tables_of, taps};
