ghost use Rattle.std.specs.Prelude.{◌≡◌};
ghost use Rattle.wire_stacks.specs.declared.error.OffError.TheVariants.{Want};

use std::alloc::{AllocError, AllocFailed};

/// Why vias that are placed make no stacks.
#[derive(Clone, Copy, Debug, PartialEq, Eq)]
pub enum OffError {
    /// An end of a stack lies on no centre line of a piece of its net and layer: the via at that end, by its place in the
    /// list of vias that are defined, and the place of the stack in x and y.
    ViaOff(u32, i64, i64),
    /// There was not enough memory.
    Want,
}

impl From<AllocError> for OffError {
    ghost from_gives = { λ _ e. e ≡ Want };

    fn from(_error: AllocError) -> OffError {
        OffError::Want
    }
}

impl<T: Drop> From<AllocFailed<T>> for OffError {
    ghost from_gives = { λ _ e. e ≡ Want };

    fn from(_error: AllocFailed<T>) -> OffError {
        OffError::Want
    }
}
