//! Pieces and connects that are made up, as the search for stacks asks for them.
ghost use Rattle.std.specs.Prelude.{◌≡◌, ◌↔◌, ◌<◌, ◌+ℤ◌, length, IsTrue, IfOk};
ghost use Rattle.geom_rect.specs.Drawn.{half};
ghost use Rattle.lef_tech.specs.Limits.{TechKeeps};
ghost use Rattle.via_arrays.specs.Choice.{direction};
ghost use Rattle.grid_stacks.specs.Stacking.{ConnectKeeps, HasLayer};
ghost use Rattle.drawing_tests.specs.inside.Stacks.{Fits, AreFitting};

use crate::kept::keeps;
use geom_rect::Axis;
use grid_pieces::Piece;
use grid_stacks::Connect;
use lef_tech::Tech;
use std::alloc::{AllocError, Global};

// Four layers, horizontal and vertical in turn, with cuts of 70 nm at a pitch of 150 nm between each two of them, and a
// fifth one without a sheet resistance.
pub(crate) const TECH: &str = "
LAYER metal1 TYPE ROUTING ; DIRECTION HORIZONTAL ; RESISTANCE RPERSQ 0.25 ; END metal1
LAYER via1 TYPE CUT ; RESISTANCE 5 ; END via1
LAYER metal2 TYPE ROUTING ; DIRECTION VERTICAL ; RESISTANCE RPERSQ 0.25 ; END metal2
LAYER via2 TYPE CUT ; RESISTANCE 5 ; END via2
LAYER metal3 TYPE ROUTING ; DIRECTION HORIZONTAL ; RESISTANCE RPERSQ 0.25 ; END metal3
LAYER via3 TYPE CUT ; RESISTANCE 5 ; END via3
LAYER metal4 TYPE ROUTING ; DIRECTION VERTICAL ; RESISTANCE RPERSQ 0.25 ; END metal4
LAYER via4 TYPE CUT ; RESISTANCE 5 ; END via4
LAYER metal5 TYPE ROUTING ; DIRECTION HORIZONTAL ; END metal5
VIARULE rule1 GENERATE
  LAYER metal1 ; ENCLOSURE 0 0.035 ; LAYER metal2 ; ENCLOSURE 0 0.035 ;
  LAYER via1 ; RECT -0.035 -0.035 0.035 0.035 ; SPACING 0.15 BY 0.15 ;
END rule1
VIARULE rule2 GENERATE
  LAYER metal2 ; ENCLOSURE 0 0.035 ; LAYER metal3 ; ENCLOSURE 0 0.035 ;
  LAYER via2 ; RECT -0.035 -0.035 0.035 0.035 ; SPACING 0.15 BY 0.15 ;
END rule2
VIARULE rule3 GENERATE
  LAYER metal3 ; ENCLOSURE 0 0.035 ; LAYER metal4 ; ENCLOSURE 0 0.035 ;
  LAYER via3 ; RECT -0.035 -0.035 0.035 0.035 ; SPACING 0.15 BY 0.15 ;
END rule3
END LIBRARY
";

pub(crate) fn same_axis(a: Axis, b: Axis) -> bool
    ensures { IsTrue result ↔ (a ≡ b) }
{
    a == b
}

pub(crate) fn is_even(width: i64) -> bool
    ensures { IsTrue result → width ≡ half width +ℤ half width }
{
    let half = width / 2;
    match half.checked_add(half) {
        Some(twice) => twice == width,
        None => false,
    }
}

pub(crate) fn direction_of(tech: &Tech, layer: u32) -> Axis
    requires { layer < length tech.now.routing }
    ensures { result ≡ direction tech.now layer }
{
    tech.routing.as_slice()[layer as usize].direction
}

pub(crate) fn has_layer(tech: &Tech, layer: u32) -> bool
    ensures { IsTrue result → layer < length tech.now.routing }
{
    (layer as usize) < tech.routing.as_slice().len()
}

pub(crate) fn goes_along(tech: &Tech, piece: &Piece) -> bool
    requires { HasLayer tech.now piece.now }
    ensures { IsTrue result → piece.now.axis ≡ direction tech.now piece.now.layer }
{
    same_axis(piece.axis, direction_of(tech, piece.layer))
}

// Whether the piece keeps what is asked of it.
pub(crate) fn fits(tech: &Tech, piece: &Piece) -> bool
    ensures { IsTrue result → Fits tech.now piece.now }
{
    keeps(piece) && is_even(piece.width) && has_layer(tech, piece.layer) && goes_along(tech, piece)
}

// Those of the pieces that do, and of which each has its centre after that of the one before.
pub(crate) fn fitting(
    alloc: Global,
    tech: &Tech,
    pieces: &[Piece],
) -> Result<Vec<Piece>, AllocError>
    ensures { IfOk result (λ kept. AreFitting tech.now kept.items) }
{
    let mut kept = Vec::new(alloc);
    let mut last = i64::MIN;
    for piece in pieces {
        if last < piece.centre && fits(tech, piece) {
            kept.push(*piece)?;
            last = piece.centre;
        }
    }
    Ok(kept)
}

pub(crate) fn connect_keeps(tech: &Tech, connect: &Connect) -> bool
    ensures { IsTrue result → ConnectKeeps tech.now connect.now }
{
    connect.from < connect.to
        && has_layer(tech, connect.to)
        && !same_axis(
            direction_of(tech, connect.from),
            direction_of(tech, connect.to),
        )
}
