//! The limits of wires and of arrays of cuts.
ghost use Rattle.std.specs.Prelude.{◌≡◌, ◌*◌, ◌^◌, ◌<◌, ◌≤◌, MatchOption};
ghost use Rattle.lef_tech.specs.declared.layer.Density.TheVariants.{Unlimited};
ghost use Rattle.lef_tech.specs.Limits.{RoutingKeeps, CutKeeps};
ghost use Rattle.via_arrays.specs.Lengths.{IsUnits};
ghost use Rattle.em_rules.specs.Limit.{IsDensity, IsWireLimit, IsCutLimit, IsWidth, HasCuts};
ghost use Rattle.em_rules.specs.inside.Tables.{DensityFits};

use crate::tables::table_density;
use lef_tech::{CutLayer, Density, RoutingLayer};
use via_arrays::CutArray;

/// A micrometre has this many picometres, in which the widths of tables are given.
const PICOMETRES: u128 = 1_000_000;

/// A square micrometre has this many of the areas in which the areas of tables are given.
const SQUARE_PICOMETRES: u128 = 1_000_000_000_000;

/// The greatest current of a wire of this layer, in femtoamperes. The width is in units, of which a micrometre has
/// `units`. It takes no memory.
///
/// The density is that of the layer's table at the exact width, rounded down to a femtoampere; times the width it is
/// rounded down once more. `None` where the layer states no density.
pub fn wire_limit(layer: &RoutingLayer, width: i64, units: u32) -> Option<u128>
    requires layer { RoutingKeeps layer.now }
    requires width { IsWidth width }
    requires units { IsUnits units }
    ensures { IsWireLimit layer.now width units result }
{
    let width = width as u128;
    let units = u128::from(units);
    let density = density_at(&layer.density, width * PICOMETRES, units)?;
    Some(density * width / units)
}

/// The greatest current of an array of cuts of this layer, in femtoamperes. The lengths of the array are in units, of
/// which a micrometre has `units`. It takes no memory.
///
/// The density is that of the layer's table at the exact area of one cut, rounded down to a femtoampere; times the area
/// of all cuts it is rounded down once more. `None` where the layer states no density.
pub fn cut_limit(layer: &CutLayer, array: &CutArray, units: u32) -> Option<u128>
    requires layer { CutKeeps layer.now }
    requires array { HasCuts array.now }
    requires units { IsUnits units }
    ensures { IsCutLimit layer.now array.now units result }
{
    let area = array.cut_x as u128 * array.cut_y as u128;
    let cuts = u128::from(array.columns) * u128::from(array.rows);
    let square = u128::from(units) * u128::from(units);
    let density = density_at(&layer.density, area * SQUARE_PICOMETRES, square)?;
    Some(density * (area * cuts) / square)
}

// The density that a layer states for a width or an area of n / d.
fn density_at(density: &Density, n: u128, d: u128) -> Option<u128>
    requires some { 0 < d }
    requires few { d ≤ 4 * 10 ^ 8 }
    requires fits { DensityFits density.now d }
    ensures { MatchOption result (density.now ≡ Unlimited) (IsDensity density.now n d) }
{
    match density {
        Density::Unlimited => None,
        Density::One(stated) => Some(u128::from(*stated)),
        Density::Table(points) => Some(table_density(points.as_slice(), n, d)),
    }
}
