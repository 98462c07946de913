//! Whether a piece has metal of a shape.
ghost use Rattle.std.specs.Prelude.{◌≡◌, ℤ, ◌↔◌, IsTrue};
ghost use Rattle.geom_rect.specs.Run.{HasCell};
ghost use Rattle.geom_rect.specs.Drawn.{drawn_run};
ghost use Rattle.grid_pieces.specs.Line.{drawn_line, piece_line, piece_run};
ghost use Rattle.pin_pieces.specs.Pins.{ShareCell};

use geom_rect::{Axis, Drawn};
use grid_pieces::Piece;

// Whether the piece and the shape lie on one line and have a cell in common.
pub(crate) fn share_cell(piece: &Piece, shape: &Drawn) -> bool
    ensures { IsTrue result ↔ ShareCell piece.now shape.now }
{
    on_one_line(piece, shape) && have_common(piece, shape)
}

// Whether they lie on one line.
fn on_one_line(piece: &Piece, shape: &Drawn) -> bool
    ensures { IsTrue result ↔ (drawn_line shape.now ≡ piece_line piece.now) }
{
    shape.net == piece.net
        && shape.layer == piece.layer
        && same_axis(shape.axis, piece.axis)
        && shape.centre == piece.centre
        && shape.width == piece.width
}

fn same_axis(a: Axis, b: Axis) -> bool
    ensures { IsTrue result ↔ (a ≡ b) }
{
    a == b
}

// Whether there is a cell between the ends of both.
fn have_common(piece: &Piece, shape: &Drawn) -> bool
    ensures { IsTrue result ↔ ((t : ℤ) × HasCell (piece_run piece.now) t × HasCell (drawn_run shape.now) t) }
{
    piece.from.max(shape.from) < piece.to.min(shape.to)
}
