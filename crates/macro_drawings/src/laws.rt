//! Laws of the definitions, each on a function that does nothing.
ghost use Rattle.std.specs.Prelude.{◌≤◌, All, length};
ghost use Rattle.def_design.specs.declared.record.Design.{Design};
ghost use Rattle.def_design.specs.Limits.{DesignKeeps};
ghost use Rattle.def_writer.specs.Limits.{GridFits};
ghost use Rattle.grid_shapes.specs.Drawing.{PieceStands, StackStands};
ghost use Rattle.grid_plan.specs.Names.{AreNets};
ghost use Rattle.lef_cells.specs.declared.record.Cells.{Cells};
ghost use Rattle.lef_cells.specs.Limits.{CellsKeep};
ghost use Rattle.lef_tech.specs.declared.tech.Tech.{Tech};
ghost use Rattle.lef_tech.specs.Limits.{TechKeeps};
ghost use Rattle.macro_blocks.specs.declared.record.Blocks.{Blocks};
ghost use Rattle.macro_extract.specs.Extraction.{DrawnKeeps};
ghost use Rattle.macro_grid.specs.declared.record.MacroGrid.{MacroGrid};
ghost use Rattle.macro_grid.specs.Drawing.{IsMacroDrawing};
ghost use Rattle.pdn_script.specs.declared.record.Script.{Script};
ghost use Rattle.pdn_script.specs.Limits.{ScriptKeeps};

/// The whole grid of a drawing over blocks keeps what is asked of a grid of which a network is extracted, and the grid without the pins
/// of blocks what is asked of one that is written.
pub fn drawings_over_blocks_are_grids()
    ensures keeps { (tech : Tech) (cells : Cells) (blocks : Blocks) (design : Design) (script : Script) (drawn : MacroGrid)
        → TechKeeps tech → CellsKeep cells → DesignKeeps design → ScriptKeeps script
        → IsMacroDrawing tech cells blocks design script drawn → All (PieceStands tech drawn.grid) drawn.grid.pieces
        → All (StackStands tech drawn.grid) drawn.grid.stacks → length drawn.grid.pieces ≤ 4000000
        → length drawn.grid.stacks ≤ 1000000 → DrawnKeeps drawn tech }
    ensures fits { (tech : Tech) (cells : Cells) (blocks : Blocks) (design : Design) (script : Script) (drawn : MacroGrid)
        → TechKeeps tech → CellsKeep cells → DesignKeeps design → ScriptKeeps script
        → IsMacroDrawing tech cells blocks design script drawn → All (PieceStands tech drawn.grid) drawn.grid.pieces
        → All (StackStands tech drawn.grid) drawn.grid.stacks → length drawn.grid.pieces ≤ 4000000
        → length drawn.grid.stacks ≤ 1000000 → GridFits tech drawn.written }
{}

/// The nets of a drawing over blocks are those of the script.
pub fn nets_over_blocks_are_named()
    ensures nets { (tech : Tech) (cells : Cells) (blocks : Blocks) (design : Design) (script : Script) (drawn : MacroGrid)
        → IsMacroDrawing tech cells blocks design script drawn → AreNets script drawn.grid.nets }
{}
