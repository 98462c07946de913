//! Places at which vias stand.
ghost use Rattle.std.specs.Prelude.{◌≡◌, ◌<◌, ◌++◌, map, All, IfOk, OnOk, length, List};
ghost use Rattle.std.specs.List.{flat_map};
ghost use Rattle.def_wiring.specs.Limits.{PlaceKeeps, IsNear};
ghost use Rattle.wire_names.specs.Keeping.{SpotStands};
ghost use Rattle.wire_names.specs.Wiring.{spot_of, spots_of};
ghost use Rattle.wire_names.specs.inside.Tables.{names_in, LiesNear};

use crate::number::place;
use crate::pair::net_number;
use crate::record::Spot;
use crate::tables::Tables;
use def_wiring::{ViaPlace, WiredNet};
use std::alloc::{AllocError, Global};

fn spot<'a>(tables: &Tables<'a>, net: u32, at: &'a ViaPlace) -> Result<Spot, AllocError>
    requires net { net < 2 }
    requires keeps { LiesNear at.now }
    ensures is { IfOk result (λ spot. spot ≡ spot_of (names_in tables.now) net at.now) }
    ensures stands { IfOk result (SpotStands (length tables.now.vias)) }
{
    let via = place(&tables.vias, &at.via)?;
    Ok(Spot {
        net,
        via,
        x: at.x,
        y: at.y,
    })
}

// Adds the places of the vias of a net.
fn add_spots<'a>(
    tables: &Tables<'a>,
    net: u32,
    places: &'a [ViaPlace],
    spots: &mut Vec<Spot>,
) -> Result<(), AllocError>
    requires net { net < 2 }
    requires keep { All LiesNear places.now }
    requires stand { All (SpotStands (length tables.now.vias)) spots.old.items }
    ensures are { OnOk result
        (spots.new.items ≡ spots.old.items ++ map (spot_of (names_in tables.now) net) places.now) }
    ensures stand { OnOk result (All (SpotStands (length tables.now.vias)) spots.new.items) }
{
    for place in places {
        spots.push(spot(tables, net, place)?)?;
    }
    Ok(())
}

// The places of all vias, in their order.
pub(crate) fn spots<'a>(
    alloc: Global,
    tables: &Tables<'a>,
    power_first: bool,
    nets: &'a [WiredNet],
) -> Result<Vec<Spot>, AllocError>
    requires { All (λ (net : WiredNet). All LiesNear net.vias) nets.now }
    ensures are { IfOk result (λ spots. spots.items ≡ flat_map (spots_of (names_in tables.now) power_first) nets.now) }
    ensures stand { IfOk result (λ spots. All (SpotStands (length tables.now.vias)) spots.items) }
{
    let mut spots = Vec::new(alloc);
    for net in nets {
        let number = net_number(power_first, net.power);
        add_spots(tables, number, net.vias.as_slice(), &mut spots)?;
    }
    Ok(spots)
}
