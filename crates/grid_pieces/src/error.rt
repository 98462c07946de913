ghost use Rattle.std.specs.Prelude.{◌≡◌};
ghost use Rattle.grid_pieces.specs.declared.error.DrawError.TheVariants.{Want};

use crate::touch::Touching;
use outside::Name;
use std::alloc::{AllocError, AllocFailed};
use via_arrays::StackError;

/// What stands too many times.
#[derive(Clone, Copy, Debug, PartialEq, Eq)]
pub enum Counted {
    /// The lines of one rule.
    Lines,
    /// The pieces of a grid.
    Pieces,
    /// The stacks of a grid.
    Stacks,
}

/// Why no grid is drawn. A layer is a place from 0 in the list of routing layers; a ring, a connect and a domain are
/// places in the lists of the script, a component and a row in those of the design; a length is in pm.
#[derive(Debug, Drop)]
pub enum DrawError {
    /// A layer of the script is no routing layer, a net none of its domain, or a region, a site or a cell is not known.
    UnknownName(Name),
    /// The two layers of a ring have one direction.
    RingLayers(u32),
    /// A layer of rails is not horizontal.
    RailLayer(u32),
    /// The layers of a connect have one direction, or are one layer.
    ParallelConnect(u32),
    /// The design has no row.
    NoRows,
    /// A length is no whole number of units.
    OffGrid(u64),
    /// A width is odd in units.
    OddWidth(u64),
    /// The region of a domain has more than one rectangle.
    RegionShape(u32),
    /// The regions of two domains meet.
    RegionsMeet(u32, u32),
    /// A row overlaps the region of a domain and does not lie in it.
    RowAcross(u32),
    /// A domain of a grid has no row.
    EmptyDomain(u32),
    /// A grid over macros stands, and this component is one.
    MacroGrid(u32),
    /// More stand than the limit.
    TooMany(Counted),
    /// A piece lies on this layer, which has no resistance of a square.
    NoSheet(u32),
    /// No stack can stand at the crossing at this place in x and y.
    Stack(StackError, i64, i64),
    /// Metal touches.
    Touch(Touching),
    /// There was not enough memory.
    Want,
}

impl From<AllocError> for DrawError {
    ghost from_gives = { λ _ e. e ≡ Want };

    fn from(_error: AllocError) -> DrawError {
        DrawError::Want
    }
}

impl<T: Drop> From<AllocFailed<T>> for DrawError {
    ghost from_gives = { λ _ e. e ≡ Want };

    fn from(_error: AllocFailed<T>) -> DrawError {
        DrawError::Want
    }
}
