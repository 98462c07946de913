//! There is one drawing, or one refusal.
ghost use Rattle.std.specs.Prelude.{◌≡◌, ◌≢◌};
ghost use Rattle.def_design.specs.declared.record.Design.{Design};
ghost use Rattle.grid_pieces.specs.declared.error.DrawError.TheVariants.{Want};
ghost use Rattle.lef_cells.specs.declared.record.Cells.{Cells};
ghost use Rattle.lef_tech.specs.declared.tech.Tech.{Tech};
ghost use Rattle.macro_blocks.specs.declared.record.Blocks.{Blocks};
ghost use Rattle.macro_grid.specs.declared.error.MacroError.{MacroError};
ghost use Rattle.macro_grid.specs.declared.error.MacroError.TheVariants.{Draw};
ghost use Rattle.macro_grid.specs.declared.record.MacroGrid.{MacroGrid};
ghost use Rattle.macro_grid.specs.Drawing.{IsMacroDrawing, IsMacroRefused};
ghost use Rattle.one_drawing.specs.Apart.{StandApart};
ghost use Rattle.pdn_script.specs.declared.record.Script.{Script};

use halo_cuts::one_cut;
use placed_blocks::one_list_of_blocks;
use via_arrays::one_stack_or_refusal;

/// A script whose connects and rings stand at different places draws one grid over a design with blocks at most.
pub fn one_drawing_over_blocks()
    ensures { (tech : Tech) (cells : Cells) (blocks : Blocks) (design : Design) (script : Script) (a b : MacroGrid)
        → StandApart script → IsMacroDrawing tech cells blocks design script a
        → IsMacroDrawing tech cells blocks design script b → a ≡ b }
{
    one_stack_or_refusal();
    one_list_of_blocks();
    one_cut();
}

/// It is refused for one reason at most, want of memory aside.
pub fn one_refusal_over_blocks()
    ensures { (tech : Tech) (cells : Cells) (blocks : Blocks) (design : Design) (script : Script) (e f : MacroError)
        → StandApart script → IsMacroRefused tech cells blocks design script e
        → IsMacroRefused tech cells blocks design script f → e ≢ Draw Want → f ≢ Draw Want → e ≡ f }
{
    one_stack_or_refusal();
    one_list_of_blocks();
    one_cut();
}

/// Where it draws a grid, nothing refuses it but want of memory.
pub fn drawn_or_refused_over_blocks()
    ensures { (tech : Tech) (cells : Cells) (blocks : Blocks) (design : Design) (script : Script) (drawn : MacroGrid)
        (e : MacroError) → StandApart script → IsMacroDrawing tech cells blocks design script drawn
        → IsMacroRefused tech cells blocks design script e → e ≡ Draw Want }
{
    one_stack_or_refusal();
    one_list_of_blocks();
    one_cut();
}
