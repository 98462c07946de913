//! The law, on a function that does nothing of its own.
ghost use Rattle.std.specs.Prelude.{◌≡◌, ℕ, List, Ok};
ghost use Rattle.bias_file.specs.Limits.{BiasKeeps};
ghost use Rattle.bias_file.specs.declared.record.Bias.{Bias};
ghost use Rattle.lef_tech.specs.declared.tech.Tech.{Tech};
ghost use Rattle.lef_cells.specs.declared.record.Cells.{Cells};
ghost use Rattle.def_design.specs.declared.record.Design.{Design};
ghost use Rattle.def_wiring.specs.Format.{ReadsWires};
ghost use Rattle.def_wiring.specs.declared.record.Wires.{Wires};
ghost use Rattle.pdn_script.specs.Format.{ReadsScript};
ghost use Rattle.pdn_script.specs.declared.record.Script.{Script};
ghost use Rattle.grid_pieces.specs.declared.grid.Grid.{Grid};
ghost use Rattle.grid_network.specs.declared.extracted.Extracted.{Extracted};
ghost use Rattle.grid_extract.specs.Extraction.{IsExtracted};
ghost use Rattle.def_writer.specs.Written.{written_def};
ghost use Rattle.alike_grids.specs.Alike.{AreAlike, without_regions};
ghost use Rattle.drawn_wiring.specs.Drawn.{AreRead, IsDrawn};
ghost use Rattle.wired_grid.specs.Wired.{IsWiredGrid};
ghost use Rattle.rewired_networks.specs.Over.{HasOneDomain};

use alike_grids::{alike_grids_have_one_network, one_region_changes_no_network};
use drawn_again::drawn_grids_are_rewirable;
use drawn_wiring::drawn_grids_read_back;
use one_network::one_network;
use rewired_grids::rewired_grids_are_alike;
use tech_names::read_techs_have_their_own_names;
use written_wiring::written_grids_have_wires;

/// Where a grid over one domain is drawn of what was read, the grid of the wires that are read of its written DEF is alike but
/// for the domain's region, which no wiring says, and both have one network.
pub fn rewired_networks_are_the_same()
    ensures grids { (tech : Tech) (cells : Cells) (design : Design) (script : Script) (text : List ℕ) (grid again : Grid)
        (wires : Wires) → AreRead tech cells design script → ReadsScript text (Ok script)
        → IsDrawn tech cells design script grid → HasOneDomain grid → ReadsWires (written_def design tech grid) (Ok wires)
        → IsWiredGrid tech design wires again → AreAlike (without_regions grid) again }
    ensures networks { (tech : Tech) (cells : Cells) (design : Design) (script : Script) (text : List ℕ) (bias : Bias)
        (grid again : Grid) (wires : Wires) (one other : Extracted) → AreRead tech cells design script
        → ReadsScript text (Ok script) → BiasKeeps bias → IsDrawn tech cells design script grid → HasOneDomain grid
        → ReadsWires (written_def design tech grid) (Ok wires) → IsWiredGrid tech design wires again
        → IsExtracted grid tech cells design bias one → IsExtracted again tech cells design bias other → one ≡ other }
{
    read_techs_have_their_own_names();
    drawn_grids_read_back();
    written_grids_have_wires();
    drawn_grids_are_rewirable();
    rewired_grids_are_alike();
    one_region_changes_no_network();
    alike_grids_have_one_network();
    one_network();
}
