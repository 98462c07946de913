//! The law, on a function that does nothing.
ghost use Rattle.std.specs.Prelude.{ℕ, List, Ok};
ghost use Rattle.def_design.specs.Format.{ReadsDesign, ReadsPlaced};
ghost use Rattle.def_design.specs.declared.record.Design.{Design};

/// A design that is read where wires are refused is read as the same design where they are passed over.
pub fn read_designs_are_placed()
    ensures { (text : List ℕ) (design : Design) → ReadsDesign text (Ok design) → ReadsPlaced text (Ok design) }
{}
