//! Vias that stand somewhere.
ghost use Rattle.std.specs.Prelude.{◌≡◌, ◌↔◌, ◌<◌, ◌+◌, ◌*ℤ◌, ◌≤ℤ◌, pos, All, IfOk, IsTrue, MatchOption, length};
ghost use Rattle.lef_tech.specs.Limits.{TechKeeps};
ghost use Rattle.wire_names.specs.Keeping.{ViaStands};
ghost use Rattle.wire_names.specs.declared.record.NamedVia.{NamedVia};
ghost use Rattle.wire_names.specs.declared.record.Spot.{Spot};
ghost use Rattle.wire_limits.specs.Vias.{HasItsLayers, HasLayersOf, HasSize, HasCutResistance, IsFirstUsedWithout, EachUsedHas};
ghost use Rattle.wire_limits.specs.inside.Used.{AreUses, FindsUsed, FindsLayer};

use crate::number::number;
use crate::resistance::has_resistance;
use crate::within::MOST_SIZE;
use lef_tech::{Tech, ViaRule};
use std::alloc::AllocError;
use wire_names::{NamedVia, Spot};

// The first used via whose layers are not those of its rule.
pub(crate) fn other_layers(
    tech: &Tech,
    vias: &[NamedVia],
    spots: &[Spot],
    used: &[bool],
) -> Result<Option<u32>, AllocError>
    requires stand { All (ViaStands (length tech.now.routing) (length tech.now.cuts) (length tech.now.rules)) vias.now }
    requires used { AreUses (length vias.now) spots.now used.now }
    ensures { IfOk result (FindsUsed (HasItsLayers tech.now) vias.now spots.now) }
{
    for (place, via) in vias.iter().enumerate() {
        if used[place] && !has_its_layers(tech, via) {
            return Ok(Some(number(place)?));
        }
    }
    Ok(None)
}

// The first used via whose columns or rows are too long.
pub(crate) fn too_long(
    vias: &[NamedVia],
    spots: &[Spot],
    used: &[bool],
) -> Result<Option<u32>, AllocError>
    requires used { AreUses (length vias.now) spots.now used.now }
    ensures { IfOk result (FindsUsed HasSize vias.now spots.now) }
{
    for (place, via) in vias.iter().enumerate() {
        if used[place] && !has_size(via) {
            return Ok(Some(number(place)?));
        }
    }
    Ok(None)
}

// The lower layer of the first used via without a resistance of a cut.
pub(crate) fn without_cut(
    tech: &Tech,
    vias: &[NamedVia],
    spots: &[Spot],
    used: &[bool],
) -> Option<u32>
    requires tech { TechKeeps tech.now }
    requires stand { All (ViaStands (length tech.now.routing) (length tech.now.cuts) (length tech.now.rules)) vias.now }
    requires used { AreUses (length vias.now) spots.now used.now }
    ensures { FindsLayer tech.now vias.now spots.now result }
{
    for (place, via) in vias.iter().enumerate() {
        if used[place] && !has_resistance(tech, via) {
            return Some(via.lower);
        }
    }
    None
}

fn has_its_layers(tech: &Tech, via: &NamedVia) -> bool
    requires { via.now.rule < length tech.now.rules }
    ensures { IsTrue result ↔ HasItsLayers tech.now via.now }
{
    has_layers_of(&tech.rules.as_slice()[via.rule as usize], via)
}

fn has_layers_of(rule: &ViaRule, via: &NamedVia) -> bool
    ensures { IsTrue result ↔ HasLayersOf rule.now via.now }
{
    via.lower == rule.lower
        && via.cut == rule.cut
        && via.upper == rule.upper
        && is_next(via.lower, via.upper)
}

// Whether one layer is the one directly after another.
fn is_next(lower: u32, upper: u32) -> bool
    ensures { IsTrue result ↔ (upper ≡ lower + 1) }
{
    lower < upper && upper - lower == 1
}

fn has_size(via: &NamedVia) -> bool
    ensures { IsTrue result ↔ HasSize via.now }
{
    is_short(via.columns, via.pitch_x) && is_short(via.rows, via.pitch_y)
}

// Whether so many pitches do not pass the greatest size.
fn is_short(count: u32, pitch: i64) -> bool
    ensures { IsTrue result ↔ ((pos count *ℤ pitch) ≤ℤ MOST_SIZE) }
{
    i128::from(count) * i128::from(pitch) <= i128::from(MOST_SIZE)
}
