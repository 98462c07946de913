//! The law, on a function that does nothing of its own.
ghost use Rattle.std.specs.Prelude.{◌≡◌, List};
ghost use Rattle.geom_rect.specs.declared.drawn.Drawn.{Drawn};
ghost use Rattle.grid_pieces.specs.declared.piece.Block.{Block};
ghost use Rattle.grid_pieces.specs.declared.piece.Piece.{Piece};
ghost use Rattle.grid_pieces.specs.Piece.{ArePieces};
ghost use Rattle.wire_pieces.specs.Pieces.{AreWirePieces};
ghost use Rattle.redrawn_pieces.specs.Redrawn.{AreRedrawn};

/// The pieces into which blockages cut drawn shapes, drawn again as wiring, are the same pieces in the same order.
pub fn redrawn_pieces_are_the_same()
    ensures { (drawn : List Drawn) (blocks : List Block) (pieces again : List Piece) (shapes : List Drawn)
        → ArePieces drawn blocks pieces → AreRedrawn pieces shapes → AreWirePieces shapes again → again ≡ pieces }
{}
