ghost use Rattle.std.specs.Prelude.{◌≡◌, ℤ};
ghost use Rattle.macro_turns.specs.declared.turned.Placed.{Placed};
ghost use Rattle.macro_turns.specs.declared.turned.Point.{Point};
ghost use Rattle.macro_turns.specs.Turns.{point_in_place};

/// The law of turning: two points of a macro have two places.
pub fn places_are_apart()
    ensures { (m : Placed) (a b : Point) → point_in_place m a ≡ point_in_place m b → a ≡ b }
{}
