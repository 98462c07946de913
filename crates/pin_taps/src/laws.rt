ghost use Rattle.std.specs.Prelude.{◌↔◌, ℤ, IsTrue, List};
ghost use Rattle.grid_network.specs.Drawing.{HasStackEnd};
ghost use Rattle.grid_pieces.specs.declared.piece.Piece.{Piece};
ghost use Rattle.grid_pieces.specs.declared.piece.StackAt.{StackAt};
ghost use Rattle.pin_taps.specs.Fed.{has_stack_end};

/// The law of the ends of stacks: one of the stacks has an end on a piece exactly where, somewhere along the piece, the network has a
/// junction at the end of a stack.
pub fn stack_ends_are_junctions()
    ensures { (stacks : List StackAt) (piece : Piece) → IsTrue (has_stack_end stacks piece)
        ↔ ((along : ℤ) × HasStackEnd stacks piece along) }
{}
