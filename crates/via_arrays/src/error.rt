ghost use Rattle.std.specs.Prelude.{◌≡◌};
ghost use Rattle.via_arrays.specs.declared.error.StackError.TheVariants.{Want};

use std::alloc::{AllocError, AllocFailed};

/// Why a rule gives no array at a crossing.
#[derive(Clone, Copy, Debug, PartialEq, Eq)]
pub enum ArrayError {
    /// A length of the rule is no whole number of units.
    OffGrid,
    /// Not a single cut fits.
    NoCutFits,
}

/// Why there is no stack at a crossing. A layer is the lower one of the pair that is not joined.
#[derive(Clone, Copy, Debug, PartialEq, Eq)]
pub enum StackError {
    /// No rule joins this layer and the next one at these widths.
    NoRule(u32),
    /// A length of this rule is no whole number of units.
    OffGrid(u32),
    /// Not a single cut fits between this layer and the next one.
    NoCutFits(u32),
    /// Neither the rule nor its cut layer has a resistance of a cut.
    NoResistance(u32),
    /// There was not enough memory.
    Want,
}

impl From<AllocError> for StackError {
    ghost from_gives = { λ _ e. e ≡ Want };

    fn from(_error: AllocError) -> StackError {
        StackError::Want
    }
}

impl<T: Drop> From<AllocFailed<T>> for StackError {
    ghost from_gives = { λ _ e. e ≡ Want };

    fn from(_error: AllocFailed<T>) -> StackError {
        StackError::Want
    }
}
