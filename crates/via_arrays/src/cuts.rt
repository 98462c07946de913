ghost use Rattle.std.specs.Prelude.{◌≡◌, ◌<◌, ◌≤◌, ◌^◌, length, max};
ghost use Rattle.via_arrays.specs.Lengths.{IsUnits};
ghost use Rattle.via_arrays.specs.Cuts.{IsMost};
ghost use Rattle.via_arrays.specs.Arrays.{enclosure_along};
ghost use Rattle.via_arrays.specs.inside.Lengths.{RuleLengths};
ghost use Rattle.via_arrays.specs.inside.Cuts.{AreSmall, lengths_along};

use crate::choice::direction;
use crate::lengths::in_units;
use geom_rect::Axis;
use lef_tech::{Tech, ViaRule};

// The lengths of a rule along an axis, in units: of a cut, from a cut to the next, and the enclosures of the two layers.
#[derive(Clone, Copy)]
pub(crate) struct Along {
    pub(crate) cut: u64,
    pub(crate) pitch: u64,
    pub(crate) lower: u64,
    pub(crate) upper: u64,
}

pub(crate) fn lengths_along(tech: &Tech, rule: &ViaRule, units: u32, axis: Axis) -> Along
    requires lower { rule.now.lower < length tech.now.routing }
    requires upper { rule.now.upper < length tech.now.routing }
    requires rule { RuleLengths rule.now }
    requires units { IsUnits units }
    ensures lengths { result ≡ lengths_along tech.now rule.now units axis }
    ensures small { AreSmall result }
{
    let (cut, pitch) = match axis {
        Axis::X => (rule.cut_x, rule.pitch_x),
        Axis::Y => (rule.cut_y, rule.pitch_y),
    };
    let lower = enclosure_along(axis, direction(tech, rule.lower), rule.lower_enclosure);
    let upper = enclosure_along(axis, direction(tech, rule.upper), rule.upper_enclosure);
    Along {
        cut: in_units(cut, units),
        pitch: in_units(pitch, units),
        lower: in_units(lower, units),
        upper: in_units(upper, units),
    }
}

// The enclosure along an axis of a layer of this direction.
fn enclosure_along(axis: Axis, direction: Axis, enclosure: (u64, u64)) -> u64
    ensures { result ≡ enclosure_along axis direction enclosure }
{
    if axis == direction {
        enclosure.0.max(enclosure.1)
    } else {
        enclosure.0.min(enclosure.1)
    }
}

// The greatest number of cuts, up to a limit, that fit into an extent.
pub(crate) fn most(limit: u32, extent: u64, along: Along) -> u32
    requires small { AreSmall along }
    requires pitch { 0 < along.pitch }
    requires extent { extent < 2 ^ 63 }
    ensures { IsMost limit extent along.cut along.pitch (max along.lower along.upper) result }
{
    let least = along.cut + 2 * along.lower.max(along.upper);
    if extent < least {
        return 0;
    }
    let count = (extent - least) / along.pitch + 1;
    count.min(u64::from(limit)) as u32
}
