use entry_list::Entries;
use grid_pieces::Grid;
use pin_pieces::PinPiece;

/// A power grid over blocks, in units of the drawing.
#[derive(Debug, Drop)]
pub struct MacroGrid {
    /// The whole grid, the pins of blocks among its pieces.
    pub grid: Grid,
    /// The grid as it is written: without the pieces that are pins.
    pub written: Grid,
    /// The pieces of the whole grid that have metal of pins, in the order of the components and then of the pieces.
    pub pins: Entries<PinPiece>,
}
