ghost use Rattle.std.specs.Prelude.{◌≡◌, ◌<◌, length, MatchResult};
ghost use Rattle.lef_tech.specs.Limits.{TechKeeps};
ghost use Rattle.geom_rect.specs.Rect.{IsInOrder, HasCoordinates};
ghost use Rattle.via_arrays.specs.Lengths.{IsUnits};
ghost use Rattle.via_arrays.specs.Arrays.{IsArray, IsArrayRefused};
ghost use Rattle.via_arrays.specs.inside.Cuts.{AreSmall, array_along};

use crate::cuts::{Along, lengths_along, most};
use crate::error::ArrayError;
use crate::extents::extent;
use crate::lengths::rule_on_grid;
use crate::parts::CutArray;
use geom_rect::{Axis, Rect};
use lef_tech::Tech;

/// The array of cuts that a rule gives at a crossing: as many columns and rows as fit with their enclosures, up to the
/// stated limits.
///
/// Errors: a length of the rule is no whole number of units, its ranges of widths too; then, not a single cut fits.
pub fn array(
    tech: &Tech,
    rule: u32,
    crossing: Rect,
    units: u32,
    max_columns: u32,
    max_rows: u32,
) -> Result<CutArray, ArrayError>
    requires tech { TechKeeps tech.now }
    requires rule { rule < length tech.now.rules }
    requires crossing { IsInOrder crossing × HasCoordinates crossing }
    requires units { IsUnits units }
    ensures { MatchResult result (IsArray tech.now rule crossing units max_columns max_rows)
        (IsArrayRefused tech.now rule crossing units max_columns max_rows) }
{
    let of_rule = &tech.rules.as_slice()[rule as usize];
    if !rule_on_grid(of_rule, units) {
        return Err(ArrayError::OffGrid);
    }
    let in_x = lengths_along(tech, of_rule, units, Axis::X);
    let in_y = lengths_along(tech, of_rule, units, Axis::Y);
    let columns = most(max_columns, extent(Axis::X, crossing), in_x);
    let rows = most(max_rows, extent(Axis::Y, crossing), in_y);
    if columns == 0 || rows == 0 {
        return Err(ArrayError::NoCutFits);
    }
    Ok(array_along(rule, columns, rows, in_x, in_y))
}

fn array_along(rule: u32, columns: u32, rows: u32, in_x: Along, in_y: Along) -> CutArray
    requires in_x { AreSmall in_x }
    requires in_y { AreSmall in_y }
    ensures { result ≡ array_along rule columns rows in_x in_y }
{
    CutArray {
        rule,
        columns,
        rows,
        cut_x: in_x.cut as i64,
        cut_y: in_y.cut as i64,
        pitch_x: in_x.pitch as i64,
        pitch_y: in_y.pitch as i64,
        lower_x: in_x.lower as i64,
        lower_y: in_y.lower as i64,
        upper_x: in_x.upper as i64,
        upper_y: in_y.upper as i64,
    }
}
