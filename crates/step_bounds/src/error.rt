ghost use Rattle.std.specs.Prelude.{◌≡◌};
ghost use Rattle.step_bounds.specs.declared.error.StepError.TheVariants.{Want};

use crate::steps::Steps;
use grid_net::Quantity;
use std::alloc::AllocError;

/// What keeps bounds over time steps from being made.
#[derive(Debug, Drop)]
pub enum StepError {
    /// A quantity of a step's network passes its limit: the step, the quantity, the place of the entry as
    /// `NetError::Range` has it, and the number. The lists of the steps before are `before`.
    ///
    /// The network's own resistors come first, then those of the capacitors in the order of the cards; its own pads come
    /// first, then those of the memory nodes in the order of nodes.
    Range {
        step: u32,
        quantity: Quantity,
        at: u64,
        number: i128,
        before: Steps,
    },
    /// There was not enough memory.
    Want,
}

impl From<AllocError> for StepError {
    ghost from_gives = { λ _ e. e ≡ Want };

    fn from(_error: AllocError) -> StepError {
        StepError::Want
    }
}
