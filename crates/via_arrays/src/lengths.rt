ghost use Rattle.std.specs.Prelude.{◌≡◌, ◌↔◌, IsTrue};
ghost use Rattle.lef_tech.specs.Limits.{IsLength, AreLengths, Keeps};
ghost use Rattle.via_arrays.specs.Lengths.{IsUnits, IsOnGrid, in_units, AreOnGrid, IsRuleOnGrid};
ghost use Rattle.via_arrays.specs.inside.Lengths.{RuleLengths};

use lef_tech::ViaRule;

/// A drawing has at most this many units in a micrometre (LEF/DEF 5.8 Language Reference, UNITS DISTANCE MICRONS).
pub const MOST_UNITS: u32 = 20_000;

/// Lengths of a technology are whole numbers of picometres: a micrometre has this many.
pub const PICOMETRES: u64 = 1_000_000;

// A length in units, rounded down.
pub(crate) fn in_units(length: u64, units: u32) -> u64
    requires length { IsLength length }
    requires units { IsUnits units }
    ensures { result ≡ in_units units length }
{
    length * u64::from(units) / PICOMETRES
}

fn is_on_grid(length: u64, units: u32) -> bool
    requires length { IsLength length }
    requires units { IsUnits units }
    ensures { IsTrue result ↔ IsOnGrid units length }
{
    length * u64::from(units) % PICOMETRES == 0
}

fn are_on_grid(pair: (u64, u64), units: u32) -> bool
    requires first { IsLength pair.0 }
    requires second { IsLength pair.1 }
    requires units { IsUnits units }
    ensures { IsTrue result ↔ AreOnGrid units pair }
{
    is_on_grid(pair.0, units) && is_on_grid(pair.1, units)
}

fn range_on_grid(range: Option<(u64, u64)>, units: u32) -> bool
    requires range { Keeps AreLengths range }
    requires units { IsUnits units }
    ensures { IsTrue result ↔ Keeps (AreOnGrid units) range }
{
    match range {
        Some(range) => are_on_grid(range, units),
        None => true,
    }
}

// Whether each length of the rule is a whole number of units.
pub(crate) fn rule_on_grid(rule: &ViaRule, units: u32) -> bool
    requires rule { RuleLengths rule.now }
    requires units { IsUnits units }
    ensures { IsTrue result ↔ IsRuleOnGrid units rule.now }
{
    are_on_grid(rule.lower_enclosure, units)
        && are_on_grid(rule.upper_enclosure, units)
        && range_on_grid(rule.lower_widths, units)
        && range_on_grid(rule.upper_widths, units)
        && is_on_grid(rule.cut_x, units)
        && is_on_grid(rule.cut_y, units)
        && is_on_grid(rule.pitch_x, units)
        && is_on_grid(rule.pitch_y, units)
}
