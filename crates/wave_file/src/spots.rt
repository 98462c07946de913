//! Where the lines so far have changed a load.
ghost use Rattle.std.specs.Prelude.{◌≡◌, ◌≢◌, ◌↔◌, [], ◌∷◌, ◌++◌, AllPairs, Contains, IfOk, IsTrue, OnOk};

use indexmap::IndexSet;
use std::alloc::{AllocError, Global};
use std::marker::Model;

/// A step and the number of a group.
#[derive(Clone, Copy, Debug, PartialEq, Eq, Hash, Drop)]
pub(crate) struct Spot {
    pub(crate) step: u32,
    pub(crate) node: usize,
}

/// A list of spots in the order in which they came, which tells of a spot whether it is there.
///
/// A contract sees the list.
#[derive(Drop)]
pub(crate) struct Spots {
    spots: IndexSet<Spot>,
}

impl Model for Spots {
    ghost use Rattle.std.specs.Prelude.{List};
    ghost use Rattle.wave_file.specs.declared.spots.Spot.{Spot as Entry};

    ghost Value = { List Entry };

    ghost view = { λ spots. spots.spots.keys };
}

impl Spots {
    /// No spots.
    pub(crate) fn new(alloc: Global) -> Spots
        ensures { result ≡ [] }
    {
        Spots {
            spots: IndexSet::new(alloc),
        }
    }

    /// Whether the spot is there.
    pub(crate) fn contains(&self, spot: Spot) -> bool
        ensures { IsTrue result ↔ Contains self.now spot }
    {
        self.spots.contains(&spot)
    }

    /// One more spot, at the end.
    pub(crate) fn add(&mut self, spot: Spot) -> Result<(), AllocError>
        ensures { OnOk result (¬ Contains self.old spot → self.new ≡ self.old ++ spot ∷ []) }
    {
        self.spots.insert_full(spot)?;
        Ok(())
    }

    /// No spot is there twice. It tells how many there are.
    pub(crate) fn count(&self) -> usize
        ensures { AllPairs (λ a b. a ≢ b) self.now }
    {
        self.spots.len()
    }
}
