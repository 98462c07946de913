//! The law, on a function that does nothing of its own.
ghost use Rattle.std.specs.Prelude.{◌≡◌};
ghost use Rattle.def_design.specs.declared.record.Design.{Design};
ghost use Rattle.lef_tech.specs.declared.tech.Tech.{Tech};
ghost use Rattle.grid_pieces.specs.declared.grid.Grid.{Grid};
ghost use Rattle.alike_grids.specs.Alike.{AreAlike};
ghost use Rattle.written_wiring.specs.Fits.{CanBeRead};
ghost use Rattle.written_wiring.specs.Wires.{wires_of};
ghost use Rattle.wired_grid.specs.Wired.{IsWiredGrid};
ghost use Rattle.wired_again.specs.Again.{IsRewirable};

use redrawn_pieces::redrawn_pieces_are_the_same;
use rewired_stacks::rewired_stacks_are_the_same;

/// A grid that its written wiring gives again: where it reads back, the grid over the design of its units that its own wires
/// give has the same units, nets, domains and pieces, and stacks of the same nets, places, arrays and resistances in the same
/// order.
pub fn rewired_grids_are_alike()
    ensures { (design : Design) (tech : Tech) (grid again : Grid) → IsRewirable tech grid → CanBeRead design tech grid
        → grid.units ≡ design.units → IsWiredGrid tech design (wires_of tech grid) again → AreAlike grid again }
{
    redrawn_pieces_are_the_same();
    rewired_stacks_are_the_same();
}
