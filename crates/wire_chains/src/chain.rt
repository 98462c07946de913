ghost use Rattle.std.specs.Prelude.{◌≡◌, ◌++◌, ◌∷◌, [], IfOk, OnOk};

use crate::via::ViaAt;
use std::alloc::{AllocError, Global};
use std::marker::Model;

/// Vias of one net at one place that go on from one another, bottom up.
///
/// A contract sees the list of the vias.
#[derive(Debug, Drop)]
pub struct Chain {
    vias: Vec<ViaAt>,
}

impl Model for Chain {
    ghost use Rattle.std.specs.Prelude.{List};
    ghost use Rattle.wire_chains.specs.declared.via.ViaAt.{ViaAt};

    ghost Value = { List ViaAt };

    ghost view = { λ chain. chain.vias.items };
}

impl Chain {
    // The chain of one via.
    pub(crate) fn one(alloc: Global, via: ViaAt) -> Result<Chain, AllocError>
        ensures { IfOk result (λ chain. chain ≡ via ∷ []) }
    {
        let mut vias = Vec::new(alloc);
        vias.push(via)?;
        Ok(Chain { vias })
    }

    // The chain that goes on from this one by a via.
    pub(crate) fn with(&self, alloc: Global, via: ViaAt) -> Result<Chain, AllocError>
        ensures { IfOk result (λ chain. chain ≡ self.now ++ via ∷ []) }
    {
        let mut vias = Vec::from_slice(alloc, &self.vias)?;
        vias.push(via)?;
        Ok(Chain { vias })
    }

    // Adds a via at the upper end.
    pub(crate) fn push(&mut self, via: ViaAt) -> Result<(), AllocError>
        ensures { OnOk result (self.new ≡ self.old ++ via ∷ []) }
    {
        self.vias.push(via)?;
        Ok(())
    }

    /// The vias, bottom up.
    pub fn vias(&self) -> &[ViaAt]
        ensures { result.now ≡ self.now }
    {
        &self.vias
    }
}
