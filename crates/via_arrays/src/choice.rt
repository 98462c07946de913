ghost use Rattle.std.specs.Prelude.{◌≡◌, ◌↔◌, ◌<◌, IsTrue, MatchOption, length};
ghost use Rattle.lef_tech.specs.Limits.{TechKeeps, Keeps};
ghost use Rattle.geom_rect.specs.Rect.{IsInOrder, HasCoordinates};
ghost use Rattle.via_arrays.specs.Lengths.{IsUnits};
ghost use Rattle.via_arrays.specs.Choice.{direction, IsWithin, Suits, NoneSuits, IsFirstRule};

use crate::extents::width_across;
use crate::lengths::PICOMETRES;
use geom_rect::{Axis, Rect};
use lef_tech::{Tech, ViaRule};

/// The number of the first rule, in the order of the file, that joins these two routing layers and whose ranges hold the
/// widths of both at the crossing. A crossing has coordinates of a drawing with `units` units in a micrometre.
pub fn choose_rule(tech: &Tech, lower: u32, upper: u32, crossing: Rect, units: u32) -> Option<u32>
    requires tech { TechKeeps tech.now }
    requires lower { lower < length tech.now.routing }
    requires upper { upper < length tech.now.routing }
    requires crossing { IsInOrder crossing × HasCoordinates crossing }
    requires units { IsUnits units }
    ensures { MatchOption result (NoneSuits tech.now lower upper crossing units)
        (IsFirstRule tech.now lower upper crossing units) }
{
    for (place, rule) in tech.rules.as_slice().iter().enumerate() {
        if suits(tech, lower, upper, crossing, units, rule) {
            return Some(place as u32);
        }
    }
    None
}

fn suits(tech: &Tech, lower: u32, upper: u32, crossing: Rect, units: u32, rule: &ViaRule) -> bool
    requires lower { lower < length tech.now.routing }
    requires upper { upper < length tech.now.routing }
    ensures { IsTrue result ↔ Suits tech.now lower upper crossing units rule.now }
{
    rule.lower == lower
        && rule.upper == upper
        && in_range(
            rule.lower_widths,
            width_across(direction(tech, lower), crossing),
            units,
        )
        && in_range(
            rule.upper_widths,
            width_across(direction(tech, upper), crossing),
            units,
        )
}

// Along which axis the wires of a routing layer go.
pub(crate) fn direction(tech: &Tech, layer: u32) -> Axis
    requires { layer < length tech.now.routing }
    ensures { result ≡ direction tech.now layer }
{
    tech.routing.as_slice()[layer as usize].direction
}

fn in_range(range: Option<(u64, u64)>, width: u64, units: u32) -> bool
    ensures { IsTrue result ↔ Keeps (IsWithin units width) range }
{
    match range {
        Some(range) => is_within(range, width, units),
        None => true,
    }
}

// Whether a width in units lies in a range of lengths.
fn is_within(range: (u64, u64), width: u64, units: u32) -> bool
    ensures { IsTrue result ↔ IsWithin units width range }
{
    let width = u128::from(width) * u128::from(PICOMETRES);
    let units = u128::from(units);
    u128::from(range.0) * units <= width && width <= u128::from(range.1) * units
}
