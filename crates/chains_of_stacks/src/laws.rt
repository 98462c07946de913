//! The law, on a function that does nothing of its own.
ghost use Rattle.std.specs.Prelude.{◌↔◌, List, Contains};
ghost use Rattle.wire_chains.specs.declared.via.ViaAt.{ViaAt};
ghost use Rattle.wire_chains.specs.Chain.{IsChain};
ghost use Rattle.chains_of_stacks.specs.Stacked.{AreOfStacks};

/// Where vias are those of stacks that stand apart, their maximal chains are the stacks, and no others.
pub fn chains_are_the_stacks()
    ensures { (vias : List ViaAt) (stacks : List (List ViaAt)) (chain : List ViaAt) → AreOfStacks vias stacks
        → (IsChain vias chain ↔ Contains stacks chain) }
{}
