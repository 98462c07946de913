ghost use Rattle.std.specs.Prelude.{◌≡◌};
ghost use Rattle.step_bounds.specs.declared.passed.Passed.TheVariants.{Want};
ghost use Rattle.step_bounds.specs.inside.Passed.{IsLeft, AsTold};

use grid_net::{NetError, Quantity};
use std::alloc::AllocError;

/// What keeps the network of a step from being made.
#[derive(Clone, Copy, Debug, PartialEq, Eq)]
pub(crate) enum Passed {
    /// A quantity passes its limit.
    Limit {
        quantity: Quantity,
        at: u64,
        number: i128,
    },
    /// There was not enough memory.
    Want,
}

impl From<AllocError> for Passed {
    ghost from_gives = { λ _ e. e ≡ Want };

    fn from(_error: AllocError) -> Passed {
        Passed::Want
    }
}

/// What a refusal of the lists of a step's network means: their ends are nodes and no node has two pads, so that a limit is
/// passed or memory was wanting.
pub(crate) fn passed_by(error: NetError) -> Passed
    requires { IsLeft error }
    ensures { AsTold error result }
{
    match error {
        NetError::Range {
            quantity,
            at,
            number,
        } => Passed::Limit {
            quantity,
            at,
            number,
        },
        NetError::Want => Passed::Want,
        NetError::BadEnd { .. } | NetError::PadConflict { .. } => unreachable!(),
    }
}
