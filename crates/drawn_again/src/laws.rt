//! The law, on a function that does nothing.
ghost use Rattle.std.specs.Prelude.{◌≡◌, ℕ, Ok, List, All, length};
ghost use Rattle.lef_tech.specs.declared.tech.Tech.{Tech};
ghost use Rattle.lef_cells.specs.declared.record.Cells.{Cells};
ghost use Rattle.def_design.specs.declared.record.Design.{Design};
ghost use Rattle.pdn_script.specs.declared.record.Script.{Script};
ghost use Rattle.pdn_script.specs.Format.{ReadsScript};
ghost use Rattle.pdn_script.specs.Limits.{ScriptKeeps};
ghost use Rattle.grid_pieces.specs.declared.grid.Grid.{Grid};
ghost use Rattle.grid_shapes.specs.Drawing.{IsDrawingOf, PieceStands, StackStands};
ghost use Rattle.alike_grids.specs.Alike.{without_regions};
ghost use Rattle.wired_again.specs.Again.{HasOwnNames, IsRewirable};

use script_nets::read_scripts_have_two_nets;

/// A drawing over one domain, of a script that is read, has two nets. Where it has them, its written wiring gives it again, over a
/// domain without a region, if no two layers and no two rules of the technology have one name.
pub fn drawn_grids_are_rewirable()
    ensures nets { (tech : Tech) (cells : Cells) (design : Design) (script : Script) (grid : Grid) (text : List ℕ)
        → ReadsScript text (Ok script) → ScriptKeeps script → IsDrawingOf tech cells design script grid
        → length grid.domains ≡ 1 → length grid.nets ≡ 2 }
    ensures again { (tech : Tech) (cells : Cells) (design : Design) (script : Script) (grid : Grid)
        → IsDrawingOf tech cells design script grid → All (PieceStands tech grid) grid.pieces
        → All (StackStands tech grid) grid.stacks → HasOwnNames tech → length grid.domains ≡ 1 → length grid.nets ≡ 2
        → IsRewirable tech (without_regions grid) }
{
    read_scripts_have_two_nets();
}
