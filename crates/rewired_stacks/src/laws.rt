//! The law, on a function that does nothing of its own.
ghost use Rattle.std.specs.Prelude.{◌≡◌, List, map};
ghost use Rattle.grid_pieces.specs.declared.piece.Piece.{Piece};
ghost use Rattle.grid_pieces.specs.declared.piece.StackAt.{StackAt};
ghost use Rattle.lef_tech.specs.declared.tech.Tech.{Tech};
ghost use Rattle.wire_names.specs.declared.record.NamedVia.{NamedVia};
ghost use Rattle.wire_names.specs.declared.record.Spot.{Spot};
ghost use Rattle.wire_stacks.specs.Stacks.{AreStacks};
ghost use Rattle.alike_grids.specs.Alike.{joint_of};
ghost use Rattle.rewired_stacks.specs.Rewired.{StandApart, AreRewired};

use chains_of_stacks::chains_are_the_stacks;
use stacks_apart::nothing_within_a_stack;
use via_arrays::one_resistance;

/// Stacks that stand apart on their pieces, drawn again as vias, are stacks of the same nets, places, arrays and
/// resistances in the same order.
pub fn rewired_stacks_are_the_same()
    ensures { (tech : Tech) (pieces : List Piece) (stacks again : List StackAt) (vias : List NamedVia) (spots : List Spot)
        → StandApart tech pieces stacks → AreRewired vias stacks spots → AreStacks tech vias spots pieces again
        → map joint_of again ≡ map joint_of stacks }
{
    chains_are_the_stacks();
    nothing_within_a_stack();
    one_resistance();
}
