ghost use Rattle.std.specs.Prelude.{◌≡◌};
ghost use Rattle.wire_limits.specs.declared.error.LimitError.TheVariants.{Want};

use std::alloc::{AllocError, AllocFailed};

/// What stands too many times in wiring.
#[derive(Clone, Copy, Debug, PartialEq, Eq)]
pub enum WireCount {
    /// The segments of all nets.
    Segments,
    /// The vias of all nets.
    Vias,
}

/// Why wiring is refused before its stacks are looked for. A via is a place from 0 in the list of vias that are defined, a
/// net a place in the list of nets of the wiring, a layer a place in the list of routing layers; a width is in units.
#[derive(Clone, Copy, Debug, PartialEq, Eq)]
pub enum LimitError {
    /// This via stands somewhere, and its layers are not those of its rule, bottom up, or its upper routing layer is not
    /// the one directly after its lower one.
    ViaLayers(u32),
    /// This via stands somewhere, and its columns or its rows are too long.
    ViaSize(u32),
    /// A segment of this net has this width, which is odd or 0.
    OddWidth(u32, i64),
    /// A segment lies on this layer, which has no resistance of a square.
    NoSheet(u32),
    /// A via that stands somewhere begins on this layer, and neither its rule nor its cut layer has a resistance of a cut.
    NoResistance(u32),
    /// More stand than the limit.
    TooMany(WireCount),
    /// There was not enough memory.
    Want,
}

impl From<AllocError> for LimitError {
    ghost from_gives = { λ _ e. e ≡ Want };

    fn from(_error: AllocError) -> LimitError {
        LimitError::Want
    }
}

impl<T: Drop> From<AllocFailed<T>> for LimitError {
    ghost from_gives = { λ _ e. e ≡ Want };

    fn from(_error: AllocFailed<T>) -> LimitError {
        LimitError::Want
    }
}
