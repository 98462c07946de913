//! Vias at their places.
ghost use Rattle.std.specs.Prelude.{◌≡◌, ◌<◌, All, IfOk, length};
ghost use Rattle.wire_names.specs.declared.record.Spot.{Spot};
ghost use Rattle.wire_stacks.specs.Vias.{AreViasAt, IsViaAt};

use crate::number::number;
use std::alloc::{AllocError, Global};
use wire_chains::ViaAt;
use wire_names::{NamedVia, Spot};
use wire_pieces::CentreLines;

// The vias at their places, each with its lower layer and whether a piece has the place there.
pub(crate) fn placed(
    alloc: Global,
    vias: &[NamedVia],
    spots: &[Spot],
    lines: &CentreLines,
) -> Result<Vec<ViaAt>, AllocError>
    requires { All (λ (spot : Spot). spot.via < length vias.now) spots.now }
    ensures { IfOk result (λ placed. AreViasAt vias.now lines.now spots.now placed.items) }
{
    let mut placed = Vec::new(alloc);
    for (place, spot) in spots.iter().enumerate() {
        placed.push(via_at(vias, spot, lines, number(place)?))?;
    }
    Ok(placed)
}

fn via_at(vias: &[NamedVia], spot: &Spot, lines: &CentreLines, number: u32) -> ViaAt
    requires { spot.now.via < length vias.now }
    ensures { IsViaAt vias.now lines.now number spot.now result }
{
    let layer = vias[spot.via as usize].lower;
    ViaAt {
        net: spot.net,
        x: spot.x,
        y: spot.y,
        layer,
        held: lines.have(spot.net, layer, spot.x, spot.y),
        via: spot.via,
        number,
    }
}
