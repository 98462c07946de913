//! The smallest rectangle that holds the metal of vias at one place.
ghost use Rattle.std.specs.Prelude.{◌≡◌, ◌⊎◌, ◌<◌, ◌≤◌, ◌^◌, ℤ, ◌+ℤ◌, ◌*ℤ◌, ◌≤ℤ◌, pos, All, length};
ghost use Rattle.def_wiring.specs.Limits.{IsNear, IsLength, IsPositive};
ghost use Rattle.geom_rect.specs.Rect.{IsInOrder};
ghost use Rattle.wire_chains.specs.declared.via.ViaAt.{ViaAt};
ghost use Rattle.wire_limits.specs.Vias.{HasSize};
ghost use Rattle.wire_limits.specs.declared.within.TheConstants.{MOST_SIZE};
ghost use Rattle.wire_names.specs.Keeping.{KeepsNumbers, IsWithin};
ghost use Rattle.wire_stacks.specs.Crossing.{IsCrossing, row_length, metal_length};
ghost use Rattle.wire_stacks.specs.Vias.{via_at};
ghost use Rattle.wire_stacks.specs.inside.Halves.{around, ReachesX, ReachesY, IsHalf, IsLeastHalf, IsUsable};

use geom_rect::Rect;
use wire_chains::ViaAt;
use wire_names::NamedVia;

// The smallest rectangle around a place that holds the metal of the vias of a chain.
pub(crate) fn crossing_of(vias: &[NamedVia], chain: &[ViaAt], x: i64, y: i64) -> Rect
    requires some { 0 < length chain.now }
    requires usable { All (IsUsable vias.now) chain.now }
    requires x { IsNear x }
    requires y { IsNear y }
    ensures crossing { IsCrossing vias.now chain.now x y result }
    ensures upright { IsInOrder result }
{
    let wide = half_width(vias, chain);
    let high = half_height(vias, chain);
    around(x, y, wide, high)
}

// The rectangle that goes so far from a place on each side.
fn around(x: i64, y: i64, wide: i64, high: i64) -> Rect
    requires x { IsNear x }
    requires y { IsNear y }
    requires wide { (pos 0 ≤ℤ wide) × (wide ≤ℤ pos (2 ^ 40)) }
    requires high { (pos 0 ≤ℤ high) × (high ≤ℤ pos (2 ^ 40)) }
    ensures { result ≡ around x y wide high }
{
    Rect {
        x1: x - wide,
        y1: y - high,
        x2: x + wide,
        y2: y + high,
    }
}

// How far the metal of the vias of a chain goes to the right and to the left of their place.
fn half_width(vias: &[NamedVia], chain: &[ViaAt]) -> i64
    requires some { 0 < length chain.now }
    requires usable { All (IsUsable vias.now) chain.now }
    ensures { IsLeastHalf ReachesX vias.now chain.now result }
{
    let mut half = 0;
    for via in chain {
        half = greater(half, half_width_of(&vias[via.via as usize]));
    }
    half
}

// How far it goes up and down.
fn half_height(vias: &[NamedVia], chain: &[ViaAt]) -> i64
    requires some { 0 < length chain.now }
    requires usable { All (IsUsable vias.now) chain.now }
    ensures { IsLeastHalf ReachesY vias.now chain.now result }
{
    let mut half = 0;
    for via in chain {
        half = greater(half, half_height_of(&vias[via.via as usize]));
    }
    half
}

fn half_width_of(via: &NamedVia) -> i64
    requires keeps { KeepsNumbers via.now }
    requires size { HasSize via.now }
    ensures { IsHalf ReachesX via.now result }
{
    half_of(
        via.columns,
        via.cut_x,
        via.pitch_x,
        greater(via.lower_x, via.upper_x),
    )
}

fn half_height_of(via: &NamedVia) -> i64
    requires keeps { KeepsNumbers via.now }
    requires size { HasSize via.now }
    ensures { IsHalf ReachesY via.now result }
{
    half_of(
        via.rows,
        via.cut_y,
        via.pitch_y,
        greater(via.lower_y, via.upper_y),
    )
}

// Half of the length of a row of cuts with their enclosure on both sides, rounded up.
fn half_of(count: u32, cut: i64, pitch: i64, enclosure: i64) -> i64
    requires some { 1 ≤ count }
    requires cut { IsPositive cut }
    requires some_pitch { pos 1 ≤ℤ pitch }
    requires pitch { IsWithin pitch }
    requires size { (pos count *ℤ pitch) ≤ℤ MOST_SIZE }
    requires enclosure { IsLength enclosure }
    ensures reaches { metal_length count cut pitch enclosure ≤ℤ (result +ℤ result) }
    ensures least { (other : ℤ) → metal_length count cut pitch enclosure ≤ℤ (other +ℤ other) → result ≤ℤ other }
    ensures some { pos 1 ≤ℤ result }
    ensures few { result ≤ℤ pos (2 ^ 40) }
{
    let row = row_length(count, cut, pitch);
    half_up(row + 2 * enclosure)
}

// The length of a row of cuts.
fn row_length(count: u32, cut: i64, pitch: i64) -> i64
    requires some { 1 ≤ count }
    requires cut { IsPositive cut }
    requires some_pitch { pos 1 ≤ℤ pitch }
    requires pitch { IsWithin pitch }
    requires size { (pos count *ℤ pitch) ≤ℤ MOST_SIZE }
    ensures is { result ≡ row_length count cut pitch }
    ensures some { pos 1 ≤ℤ result }
    ensures few { result ≤ℤ pos (2 ^ 33) }
{
    i64::from(count) * pitch + cut - pitch
}

// Half of a length, rounded up.
fn half_up(long: i64) -> i64
    requires some { pos 1 ≤ℤ long }
    requires few { long ≤ℤ pos (2 ^ 40) }
    ensures reaches { long ≤ℤ (result +ℤ result) }
    ensures least { (other : ℤ) → long ≤ℤ (other +ℤ other) → result ≤ℤ other }
    ensures some { pos 1 ≤ℤ result }
    ensures few { result ≤ℤ pos (2 ^ 40) }
{
    let more = long as u64 + 1;
    (more / 2) as i64
}

fn greater(one: i64, other: i64) -> i64
    ensures one { one ≤ℤ result }
    ensures other { other ≤ℤ result }
    ensures either { (result ≡ one) ⊎ (result ≡ other) }
{
    if one < other {
        return other;
    }
    one
}
