//! The law, on a function that does nothing of its own.
ghost use Rattle.std.specs.Prelude.{◌≡◌, ◌≢◌, ℕ, ◌<◌, ℤ, All, List, length, slice_index_or};
ghost use Rattle.grid_pieces.specs.declared.piece.Piece.{Piece};
ghost use Rattle.grid_pieces.specs.declared.piece.StackAt.{StackAt};
ghost use Rattle.grid_pieces.specs.Limits.{PieceKeeps};
ghost use Rattle.wire_pieces.specs.Centre.{IsHeld};
ghost use Rattle.stacks_apart.specs.Apart.{IsApart, IsWithin, AreAtOnePlace};

/// Where nothing touches, no piece has the place of a stack on a layer strictly within it, and no two stacks at one place
/// have a layer strictly within both.
pub fn nothing_within_a_stack()
    ensures piece { (pieces : List Piece) (stacks : List StackAt) (k net layer : ℕ) (x y : ℤ) (d : StackAt)
        → All PieceKeeps pieces → IsApart pieces stacks → k < length stacks → IsWithin (slice_index_or stacks k d) layer
        → (slice_index_or stacks k d).x ≡ x → (slice_index_or stacks k d).y ≡ y → ¬ IsHeld pieces net layer x y }
    ensures stack { (pieces : List Piece) (stacks : List StackAt) (k l layer : ℕ) (d : StackAt)
        → All PieceKeeps pieces → IsApart pieces stacks → k < length stacks → l < length stacks
        → IsWithin (slice_index_or stacks k d) layer → IsWithin (slice_index_or stacks l d) layer
        → AreAtOnePlace (slice_index_or stacks k d) (slice_index_or stacks l d) → k ≡ l }
{}
