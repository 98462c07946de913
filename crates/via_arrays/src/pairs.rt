ghost use Rattle.std.specs.Prelude.{◌≡◌, ◌<◌, ◌+◌, length, MatchResult};
ghost use Rattle.lef_tech.specs.Limits.{TechKeeps};
ghost use Rattle.geom_rect.specs.Rect.{IsInOrder, HasCoordinates};
ghost use Rattle.via_arrays.specs.Lengths.{IsUnits};
ghost use Rattle.via_arrays.specs.Pairs.{IsPair, IsPairRefused};
ghost use Rattle.via_arrays.specs.Resistances.{IsResistance};
ghost use Rattle.via_arrays.specs.inside.Pairs.{IsPerCut, IsShared, HasNone};

use crate::arrays::array;
use crate::choice::choose_rule;
use crate::error::{ArrayError, StackError};
use crate::parts::CutArray;
use crate::resistances::resistance;
use geom_rect::Rect;
use lef_tech::Tech;

// The array that joins a routing layer and the next one, and its resistance.
pub(crate) fn pair(
    tech: &Tech,
    layer: u32,
    crossing: Rect,
    units: u32,
    max_columns: u32,
    max_rows: u32,
) -> Result<(CutArray, u64), StackError>
    requires tech { TechKeeps tech.now }
    requires next { layer + 1 < length tech.now.routing }
    requires crossing { IsInOrder crossing × HasCoordinates crossing }
    requires units { IsUnits units }
    ensures { MatchResult result (λ p. IsPair tech.now crossing units max_columns max_rows layer p.0 p.1)
        (IsPairRefused tech.now crossing units max_columns max_rows layer) }
{
    let Some(rule) = choose_rule(tech, layer, layer + 1, crossing, units) else {
        return Err(StackError::NoRule(layer));
    };
    match array(tech, rule, crossing, units, max_columns, max_rows) {
        Err(ArrayError::OffGrid) => Err(StackError::OffGrid(rule)),
        Err(ArrayError::NoCutFits) => Err(StackError::NoCutFits(layer)),
        Ok(array) => with_resistance(tech, layer, rule, array),
    }
}

// The array with the resistance that its cuts have together.
fn with_resistance(
    tech: &Tech,
    layer: u32,
    rule: u32,
    array: CutArray,
) -> Result<(CutArray, u64), StackError>
    requires tech { TechKeeps tech.now }
    requires rule { rule < length tech.now.rules }
    requires some_columns { 0 < array.columns }
    requires some_rows { 0 < array.rows }
    ensures { MatchResult result (λ p. IsShared tech.now rule array p) (HasNone tech.now rule layer) }
{
    let Some(per_cut) = per_cut(tech, rule) else {
        return Err(StackError::NoResistance(layer));
    };
    let cuts = u64::from(array.columns) * u64::from(array.rows);
    Ok((array, shared(per_cut, cuts)))
}

// The resistance of cuts side by side.
fn shared(per_cut: u64, cuts: u64) -> u64
    requires some { 0 < cuts }
    ensures { IsResistance per_cut cuts result }
{
    resistance(u128::from(per_cut), u128::from(cuts)) as u64
}

// The resistance of a cut: that of the rule, else that of its cut layer.
fn per_cut(tech: &Tech, rule: u32) -> Option<u64>
    requires tech { TechKeeps tech.now }
    requires rule { rule < length tech.now.rules }
    ensures { IsPerCut tech.now rule result }
{
    let of_rule = &tech.rules.as_slice()[rule as usize];
    match of_rule.per_cut {
        Some(per_cut) => Some(per_cut),
        None => tech.cuts.as_slice()[of_rule.cut as usize].per_cut,
    }
}
