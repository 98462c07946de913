//! Laws of the definitions, each on a function that does nothing of its own.
ghost use Rattle.std.specs.Prelude.{ℕ, ℤ};
ghost use Rattle.lef_tech.specs.declared.tech.Tech.{Tech};
ghost use Rattle.lef_tech.specs.Limits.{TechKeeps};
ghost use Rattle.lef_cells.specs.declared.record.Cells.{Cells};
ghost use Rattle.def_design.specs.declared.record.Design.{Design};
ghost use Rattle.bias_file.specs.declared.record.Bias.{Bias};
ghost use Rattle.bias_file.specs.Limits.{BiasKeeps};
ghost use Rattle.grid_net.specs.declared.error.NetError.TheVariants.{BadEnd, PadConflict};
ghost use Rattle.grid_network.specs.declared.error.ExtractError.TheVariants.{Net as OfNet};
ghost use Rattle.macro_grid.specs.declared.record.MacroGrid.{MacroGrid};
ghost use Rattle.macro_extract.specs.Extraction.{DrawnKeeps, IsMacroExtractRefused};

use grid_network::ends_are_nodes;

/// Pads and load taps stand on pieces, and the pads of one node are of one net, whose supply has one potential: no network
/// is refused for an end that is no node, nor for two pads of one node.
pub fn no_bad_end_nor_conflict_over_blocks()
    ensures no_bad_end { (tech : Tech) (cells : Cells) (design : Design) (drawn : MacroGrid) (bias : Bias) (at : ℕ)
        → TechKeeps tech → DrawnKeeps drawn tech → BiasKeeps bias
        → ¬ IsMacroExtractRefused drawn tech cells design bias (OfNet (BadEnd at)) }
    ensures no_conflict { (tech : Tech) (cells : Cells) (design : Design) (drawn : MacroGrid) (bias : Bias) (node : ℕ)
        (first second : ℤ) → BiasKeeps bias
        → ¬ IsMacroExtractRefused drawn tech cells design bias (OfNet (PadConflict node first second)) }
{
    ends_are_nodes();
}
