//! Laws of the definitions, each on a function that does nothing.
ghost use Rattle.std.specs.Prelude.{◌≡◌, ◌≢◌, ℕ, List, Ok};
ghost use Rattle.lef_tech.specs.declared.tech.Tech.{Tech};
ghost use Rattle.lef_tech.specs.Limits.{TechKeeps};
ghost use Rattle.lef_cells.specs.declared.record.Cells.{Cells};
ghost use Rattle.def_design.specs.declared.record.Design.{Design};
ghost use Rattle.def_design.specs.Limits.{DesignKeeps};
ghost use Rattle.pdn_script.specs.declared.record.Script.{Script};
ghost use Rattle.pdn_script.specs.Limits.{ScriptKeeps};
ghost use Rattle.pdn_script.specs.Format.{ReadsScript};
ghost use Rattle.grid_pieces.specs.declared.error.DrawError.{DrawError};
ghost use Rattle.grid_pieces.specs.declared.error.DrawError.TheVariants.{Want};
ghost use Rattle.grid_pieces.specs.declared.grid.Grid.{Grid};
ghost use Rattle.grid_shapes.specs.Drawing.{IsDrawingOf, IsDrawRefused};
ghost use Rattle.one_drawing.specs.Apart.{StandApart};

use via_arrays::{counts_by_division, one_stack_or_refusal};

/// No two connects of a script that is read, no two of its rings, and no connect and ring stand at one place.
pub fn read_commands_stand_apart()
    ensures apart { (text : List ℕ) (script : Script) → ReadsScript text (Ok script) → StandApart script }
{}

/// A script whose connects and rings stand at different places draws one grid over a design at most, with this technology
/// and these cells.
pub fn one_drawing()
    ensures one { (tech : Tech) (cells : Cells) (design : Design) (script : Script) (a b : Grid) → StandApart script
        → IsDrawingOf tech cells design script a → IsDrawingOf tech cells design script b → a ≡ b }
{
    one_stack_or_refusal();
}

/// A script is refused for one reason at most, want of memory aside. This needs that its connects and rings stand at
/// different places, or that the records keep what is asked of them.
pub fn one_refusal_of_drawing()
    ensures one { (tech : Tech) (cells : Cells) (design : Design) (script : Script) (e f : DrawError)
        → StandApart script → IsDrawRefused tech cells design script e → IsDrawRefused tech cells design script f
        → e ≢ Want → f ≢ Want → e ≡ f }
    ensures kept { (tech : Tech) (cells : Cells) (design : Design) (script : Script) (e f : DrawError) → TechKeeps tech
        → DesignKeeps design → ScriptKeeps script → IsDrawRefused tech cells design script e
        → IsDrawRefused tech cells design script f → e ≢ Want → f ≢ Want → e ≡ f }
{
    one_stack_or_refusal();
    counts_by_division();
}

/// Where it draws a grid, nothing refuses it but want of memory.
pub fn drawn_or_refused()
    ensures want { (tech : Tech) (cells : Cells) (design : Design) (script : Script) (grid : Grid) (e : DrawError)
        → StandApart script → IsDrawingOf tech cells design script grid
        → IsDrawRefused tech cells design script e → e ≡ Want }
    ensures kept { (tech : Tech) (cells : Cells) (design : Design) (script : Script) (grid : Grid) (e : DrawError)
        → TechKeeps tech → DesignKeeps design → ScriptKeeps script → IsDrawingOf tech cells design script grid
        → IsDrawRefused tech cells design script e → e ≡ Want }
{
    one_stack_or_refusal();
    counts_by_division();
}
