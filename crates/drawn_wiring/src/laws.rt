//! The law, on a function that does nothing.
ghost use Rattle.std.specs.Prelude.{◌≤◌, length, Ok, Result};
ghost use Rattle.reading.specs.declared.error.ReadError.{ReadError as Error};
ghost use Rattle.reading.specs.Error.{Agree};
ghost use Rattle.lef_tech.specs.declared.tech.Tech.{Tech};
ghost use Rattle.lef_cells.specs.declared.record.Cells.{Cells};
ghost use Rattle.def_design.specs.declared.record.Design.{Design};
ghost use Rattle.pdn_script.specs.declared.record.Script.{Script};
ghost use Rattle.grid_pieces.specs.declared.grid.Grid.{Grid};
ghost use Rattle.def_writer.specs.Written.{written_def};
ghost use Rattle.wiring_file.specs.Format.{ReadsWiring};
ghost use Rattle.wiring_file.specs.Number.{limit};
ghost use Rattle.wiring_file.specs.declared.error.WiringKind.{WiringKind as Kind};
ghost use Rattle.wiring_file.specs.declared.error.WiringKind.TheVariants.{Want};
ghost use Rattle.wiring_file.specs.declared.record.Wiring.{Wiring as Record};
ghost use Rattle.written_wiring.specs.Fits.{CanBeRead};
ghost use Rattle.written_wiring.specs.Wiring.{wiring_of};
ghost use Rattle.drawn_wiring.specs.Drawn.{AreRead, IsDrawn};

use drawn_grids::drawings_are_grids;
use read_names::{read_designs_have_names, read_techs_have_names};
use written_wiring::written_grids_read_back;

/// A grid that is drawn of what was read, and that has at most 2^61 nets, can be read back: reading the DEF that is written
/// of it gives the grid's own vias, pieces and arrays of stacks, and nothing else; want of memory aside.
pub fn drawn_grids_read_back()
    ensures fits { (tech : Tech) (cells : Cells) (design : Design) (script : Script) (grid : Grid) →
        AreRead tech cells design script → IsDrawn tech cells design script grid → length grid.nets ≤ limit →
        CanBeRead design tech grid }
    ensures reads { (tech : Tech) (cells : Cells) (design : Design) (script : Script) (grid : Grid) →
        AreRead tech cells design script → IsDrawn tech cells design script grid → length grid.nets ≤ limit →
        ReadsWiring (written_def design tech grid) (Ok (wiring_of tech grid)) }
    ensures alone { (tech : Tech) (cells : Cells) (design : Design) (script : Script) (grid : Grid)
        (result : Result Record (Error Kind)) → AreRead tech cells design script →
        IsDrawn tech cells design script grid → length grid.nets ≤ limit →
        ReadsWiring (written_def design tech grid) result → Agree Want (Ok (wiring_of tech grid)) result }
{
    read_designs_have_names();
    read_techs_have_names();
    drawings_are_grids();
    written_grids_read_back();
}
