ghost use Rattle.std.specs.Prelude.{◌≡◌, pos, neg_ℤ, ◌+ℤ◌, ◌-ℤ◌, ◌^◌, IfOk};
ghost use Rattle.geom_rect.specs.Drawn.{IsWidth};
ghost use Rattle.geom_rect.specs.Rect.{HasCoordinates, IsBetween, IsCoordinate};
ghost use Rattle.ring_layout.specs.Rings.{taken, outer_edges, vertical_side, horizontal_side, sides_within, rings_of, LieAtCoordinates, FitDrawing};

use crate::rule::RingRule;
use geom_rect::{Axis, Drawn, Rect, Run, Shape};
use std::alloc::{AllocError, Global};

/// The rings of a rule around a core: for each net, from the innermost outward, its left, lower, right and upper side.
/// A side goes up to the outer edges of its two neighbours.
pub fn rings(alloc: Global, rule: &RingRule, core: Rect) -> Result<Vec<Drawn>, AllocError>
    requires width_v { IsWidth rule.now.width_v }
    requires width_h { IsWidth rule.now.width_h }
    requires within { FitDrawing rule.now core }
    ensures { IfOk result (λ sides. sides.items ≡ rings_of rule.now core) }
{
    let nets = rule.nets.as_slice();
    let mut sides = Vec::new(alloc);
    for place in 0..nets.len() {
        let outer = outer_edges(rule, core, place);
        sides.extend_from_slice(&sides_within(rule, nets[place], outer))?;
    }
    Ok(sides)
}

// The outer edges of the ring of the net at a place.
fn outer_edges(rule: &RingRule, core: Rect, place: usize) -> Rect
    requires { HasCoordinates (outer_edges rule.now core place) }
    ensures { result ≡ outer_edges rule.now core place }
{
    let flat = outer_span(
        Run {
            from: core.x1,
            to: core.x2,
        },
        place,
        (rule.left, rule.right),
        rule.width_v,
        rule.spacing_v,
    );
    let upright = outer_span(
        Run {
            from: core.y1,
            to: core.y2,
        },
        place,
        (rule.bottom, rule.top),
        rule.width_h,
        rule.spacing_h,
    );
    Rect {
        x1: flat.from,
        y1: upright.from,
        x2: flat.to,
        y2: upright.to,
    }
}

// From the outer edge of the low side up to that of the high one, where the core goes from its first end to its second.
fn outer_span(core: Run, place: usize, offsets: (i64, i64), width: i64, spacing: i64) -> Run
    requires low { IsCoordinate (core.from -ℤ offsets.0 -ℤ taken place width spacing) }
    requires high { IsCoordinate (core.to +ℤ offsets.1 +ℤ taken place width spacing) }
    ensures from { result.from ≡ core.from -ℤ offsets.0 -ℤ taken place width spacing }
    ensures to { result.to ≡ core.to +ℤ offsets.1 +ℤ taken place width spacing }
{
    let taken = taken(place, width, spacing);
    let from = i128::from(core.from) - i128::from(offsets.0) - taken;
    let to = i128::from(core.to) + i128::from(offsets.1) + taken;
    Run {
        from: from as i64,
        to: to as i64,
    }
}

// What the sides of the nets up to the one at a place take of their layer.
fn taken(place: usize, width: i64, spacing: i64) -> i128
    requires { IsBetween (neg_ℤ (pos (2 ^ 66))) (pos (2 ^ 66)) (taken place width spacing) }
    ensures { result ≡ taken place width spacing }
{
    place as i128 * (i128::from(width) + i128::from(spacing)) + i128::from(width)
}

// The left, the lower, the right and the upper side of a ring with these outer edges.
fn sides_within(rule: &RingRule, net: u32, outer: Rect) -> [Drawn; 4]
    requires width_v { IsWidth rule.now.width_v }
    requires width_h { IsWidth rule.now.width_h }
    requires within { LieAtCoordinates (sides_within rule.now net outer) }
    ensures { result ≡ sides_within rule.now net outer }
{
    let half_v = rule.width_v / 2;
    let half_h = rule.width_h / 2;
    [
        vertical_side(rule, net, outer, outer.x1 + half_v),
        horizontal_side(rule, net, outer, outer.y1 + half_h),
        vertical_side(rule, net, outer, outer.x2 - half_v),
        horizontal_side(rule, net, outer, outer.y2 - half_h),
    ]
}

// A left or right side.
fn vertical_side(rule: &RingRule, net: u32, outer: Rect, centre: i64) -> Drawn
    ensures { result ≡ vertical_side rule.now net outer centre }
{
    Drawn {
        net,
        layer: rule.vertical,
        axis: Axis::Y,
        centre,
        width: rule.width_v,
        from: outer.y1,
        to: outer.y2,
        shape: Shape::Ring,
    }
}

// A lower or upper side.
fn horizontal_side(rule: &RingRule, net: u32, outer: Rect, centre: i64) -> Drawn
    ensures { result ≡ horizontal_side rule.now net outer centre }
{
    Drawn {
        net,
        layer: rule.horizontal,
        axis: Axis::X,
        centre,
        width: rule.width_h,
        from: outer.x1,
        to: outer.x2,
        shape: Shape::Ring,
    }
}
