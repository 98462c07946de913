ghost use Rattle.std.specs.Prelude.{◌≡◌};
ghost use Rattle.wire_names.specs.declared.error.NameError.TheVariants.{Want};

use outside::Name;
use std::alloc::{AllocError, AllocFailed};

/// Why names of wiring have no places.
#[derive(Debug, Drop)]
pub enum NameError {
    /// A layer or a rule of this name is not known, or the layer is of the other type.
    UnknownName(Name),
    /// The nets with wiring are not one power net and one ground net, but so many of each.
    NetCount(u64, u64),
    /// There was not enough memory.
    Want,
}

impl From<AllocError> for NameError {
    ghost from_gives = { λ _ e. e ≡ Want };

    fn from(_error: AllocError) -> NameError {
        NameError::Want
    }
}

impl<T: Drop> From<AllocFailed<T>> for NameError {
    ghost from_gives = { λ _ e. e ≡ Want };

    fn from(_error: AllocFailed<T>) -> NameError {
        NameError::Want
    }
}
