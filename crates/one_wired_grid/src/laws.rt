//! Laws of the definitions, each on a function that does nothing of its own.
ghost use Rattle.std.specs.Prelude.{◌≡◌, ◌≢◌, All};
ghost use Rattle.text_lex.specs.Name.{IsName};
ghost use Rattle.lef_tech.specs.declared.tech.Tech.{Tech};
ghost use Rattle.def_design.specs.declared.record.Design.{Design};
ghost use Rattle.def_wiring.specs.declared.record.WiredNet.{WiredNet};
ghost use Rattle.def_wiring.specs.declared.record.Wires.{Wires};
ghost use Rattle.grid_pieces.specs.declared.grid.Grid.{Grid};
ghost use Rattle.wired_grid.specs.declared.error.WiredError.{WiredError};
ghost use Rattle.wired_grid.specs.declared.error.WiredError.TheVariants.{Want};
ghost use Rattle.wired_grid.specs.Wired.{IsWiredGrid, IsWiredRefused};

use via_arrays::one_resistance;

/// Wiring gives one grid over a design at most, with this technology.
pub fn one_wired_grid()
    ensures one { (tech : Tech) (design : Design) (wires : Wires) (a b : Grid) → IsWiredGrid tech design wires a
        → IsWiredGrid tech design wires b → a ≡ b }
{
    one_resistance();
}

/// Wiring is refused for one reason at most, want of memory aside.
pub fn one_refusal_of_wiring()
    ensures one { (tech : Tech) (design : Design) (wires : Wires) (e f : WiredError) → IsWiredRefused tech design wires e
        → IsWiredRefused tech design wires f → e ≢ Want → f ≢ Want → e ≡ f }
{
    one_resistance();
}

/// Where it gives a grid, nothing refuses it but want of memory.
pub fn wired_or_refused()
    ensures want { (tech : Tech) (design : Design) (wires : Wires) (grid : Grid) (e : WiredError)
        → IsWiredGrid tech design wires grid → IsWiredRefused tech design wires e → e ≡ Want }
{
    one_resistance();
}

/// The nets of the grid have names of DEF where the nets of the wiring have.
pub fn wired_grids_have_names()
    ensures nets { (tech : Tech) (design : Design) (wires : Wires) (grid : Grid)
        → All (λ (net : WiredNet). IsName net.name) wires.nets → IsWiredGrid tech design wires grid → All IsName grid.nets }
{}
