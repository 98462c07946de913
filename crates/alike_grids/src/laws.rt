//! The laws, on functions that do nothing of their own.
ghost use Rattle.std.specs.Prelude.{◌≡◌, length};
ghost use Rattle.lef_tech.specs.declared.tech.Tech.{Tech};
ghost use Rattle.lef_cells.specs.declared.record.Cells.{Cells};
ghost use Rattle.def_design.specs.declared.record.Design.{Design};
ghost use Rattle.bias_file.specs.declared.record.Bias.{Bias};
ghost use Rattle.grid_pieces.specs.declared.grid.Grid.{Grid};
ghost use Rattle.grid_network.specs.declared.extracted.Extracted.{Extracted};
ghost use Rattle.grid_extract.specs.Extraction.{IsExtracted};
ghost use Rattle.alike_grids.specs.Alike.{AreAlike, without_regions};

/// Two grids that are alike but for the rectangles in which their stacks stand have one network.
pub fn alike_grids_have_one_network()
    ensures { (one other : Grid) (tech : Tech) (cells : Cells) (design : Design) (bias : Bias) (extracted : Extracted)
        → AreAlike one other → IsExtracted one tech cells design bias extracted
        → IsExtracted other tech cells design bias extracted }
{}

/// A grid over one domain has the same network where the domain has no region: a component that lies outside of the region
/// draws no current, or the network is refused.
pub fn one_region_changes_no_network()
    ensures { (grid : Grid) (tech : Tech) (cells : Cells) (design : Design) (bias : Bias) (extracted : Extracted)
        → length grid.domains ≡ 1 → IsExtracted grid tech cells design bias extracted
        → IsExtracted (without_regions grid) tech cells design bias extracted }
{}
