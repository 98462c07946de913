ghost use Rattle.std.specs.Prelude.{◌≡◌, List, Option};
ghost use Rattle.def_design.specs.declared.record.Design.{Design};
ghost use Rattle.geom_rect.specs.declared.rect.Rect.{Rect};
ghost use Rattle.lef_cells.specs.declared.record.Cells.{Cells};
ghost use Rattle.lef_tech.specs.declared.tech.Tech.{Tech};
ghost use Rattle.macro_blocks.specs.declared.record.Blocks.{Blocks};
ghost use Rattle.pdn_script.specs.declared.record.Script.{Script};
ghost use Rattle.placed_blocks.specs.Placed.{ArePlacedBlocks};
ghost use Rattle.placed_blocks.specs.declared.block.PlacedBlock.{PlacedBlock};

/// The law of blocks in their places: a design has one list of them, so that nothing else meets what `placed_blocks` ensures.
pub fn one_list_of_blocks()
    ensures { (tech : Tech) (cells : Cells) (blocks : Blocks) (design : Design) (script : Script) (regions : List (Option Rect))
        (one other : List PlacedBlock) → ArePlacedBlocks tech cells blocks design script regions one
        → ArePlacedBlocks tech cells blocks design script regions other → one ≡ other }
{}
