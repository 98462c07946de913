//! The five texts.
ghost use Rattle.std.specs.Prelude.{IfOk};
ghost use Rattle.grid_gen.specs.Inputs.{IsSide, AreInputs};

use crate::bias::bias_text;
use crate::design::design_text;
use crate::fixed::{CELLS, SCRIPT, TECHNOLOGY};
use entry_list::Entries;
use std::alloc::{AllocError, Global};

/// The texts of a design, each as a file has it.
#[derive(Debug, Drop)]
pub struct Inputs {
    /// The technology in LEF.
    pub lef: Entries<u8>,
    /// The cells in LEF.
    pub cells: Entries<u8>,
    /// The placed design in DEF.
    pub def: Entries<u8>,
    /// The script of the power grid.
    pub pdn: Entries<u8>,
    /// The supplies, drop limits, pads and currents.
    pub bias: Entries<u8>,
}

/// The texts of the design with this number and this side, from 24 to 300: so many rows of so many cells.
///
/// Error: want of memory.
#[tactic(auto, using(crate::proofs::Literals::technology_is, crate::proofs::Literals::cells_is, crate::proofs::Literals::script_is))]
pub fn generate(alloc: Global, number: u64, side: u32) -> Result<Inputs, AllocError>
    requires { IsSide side }
    ensures { IfOk result (AreInputs number side) }
{
    Ok(Inputs {
        lef: Entries::new(Vec::from_slice(alloc, TECHNOLOGY)?),
        cells: Entries::new(Vec::from_slice(alloc, CELLS)?),
        def: Entries::new(design_text(alloc, number, side)?),
        pdn: Entries::new(Vec::from_slice(alloc, SCRIPT)?),
        bias: Entries::new(bias_text(alloc, side)?),
    })
}
