ghost use Rattle.std.specs.Prelude.{◌≡◌, ◌++◌, ◌∷◌, [], OnOk, IfOk};
ghost use Rattle.step_bounds.specs.declared.steps.Steps.{Steps};

use crate::steps::Steps;
use entry_list::Entries;
use std::alloc::AllocError;

/// A high and a low voltage for each node, at one step.
#[derive(Drop)]
pub(crate) struct Bounds {
    pub high: Vec<i128>,
    pub low: Vec<i128>,
}

/// The lists of the steps so far.
#[derive(Drop)]
pub(crate) struct Lists {
    pub high: Vec<Entries<i128>>,
    pub low: Vec<Entries<i128>>,
}

impl Lists {
    /// Adds the lists of the next step.
    pub(crate) fn add(&mut self, bounds: Bounds) -> Result<(), AllocError>
        ensures high { OnOk result (self.new.high.items ≡ self.old.high.items ++ bounds.high.items ∷ []) }
        ensures low { OnOk result (self.new.low.items ≡ self.old.low.items ++ bounds.low.items ∷ []) }
    {
        self.high.push(Entries::new(bounds.high))?;
        self.low.push(Entries::new(bounds.low))?;
        Ok(())
    }

    /// The lists, as they are answered.
    pub(crate) fn into_steps(self) -> Steps
        ensures high { result.high ≡ self.high.items }
        ensures low { result.low ≡ self.low.items }
    {
        Steps {
            high: Entries::new(self.high),
            low: Entries::new(self.low),
        }
    }
}
