//! Segments as shapes.
ghost use Rattle.std.specs.Prelude.{◌≡◌, ◌<◌, ◌++◌, ◌+ℤ◌, ◌-ℤ◌, cond, map, All, IfOk, OnOk, length};
ghost use Rattle.std.specs.List.{flat_map};
ghost use Rattle.def_wiring.specs.Limits.{IsLength, IsNear, NetKeeps, SegmentKeeps};
ghost use Rattle.wire_names.specs.Keeping.{ShapeStands, IsWithin};
ghost use Rattle.wire_names.specs.Nets.{net_number};
ghost use Rattle.wire_names.specs.Wiring.{shape_of, shapes_of, along_x, along_y, low_end, high_end};
ghost use Rattle.wire_names.specs.inside.Tables.{names_in};

use crate::number::place;
use crate::pair::net_number;
use crate::tables::Tables;
use def_wiring::{Segment, WiredNet};
use geom_rect::{Axis, Drawn};
use std::alloc::{AllocError, Global};

// The shapes of all segments, in their order.
pub(crate) fn shapes<'a>(
    alloc: Global,
    tables: &Tables<'a>,
    power_first: bool,
    nets: &'a [WiredNet],
) -> Result<Vec<Drawn>, AllocError>
    requires { All (λ (net : WiredNet). All SegmentKeeps net.segments) nets.now }
    ensures are { IfOk result (λ shapes. shapes.items ≡ flat_map (shapes_of (names_in tables.now) power_first) nets.now) }
    ensures stand { IfOk result (λ shapes. All (ShapeStands (length tables.now.layers)) shapes.items) }
{
    let mut shapes = Vec::new(alloc);
    for net in nets {
        let number = net_number(power_first, net.power);
        add_shapes(tables, number, net.segments.as_slice(), &mut shapes)?;
    }
    Ok(shapes)
}

// Adds the shapes of the segments of a net.
fn add_shapes<'a>(
    tables: &Tables<'a>,
    net: u32,
    segments: &'a [Segment],
    shapes: &mut Vec<Drawn>,
) -> Result<(), AllocError>
    requires net { net < 2 }
    requires keep { All SegmentKeeps segments.now }
    requires stand { All (ShapeStands (length tables.now.layers)) shapes.old.items }
    ensures are { OnOk result
        (shapes.new.items ≡ shapes.old.items ++ map (shape_of (names_in tables.now) net) segments.now) }
    ensures stand { OnOk result (All (ShapeStands (length tables.now.layers)) shapes.new.items) }
{
    for segment in segments {
        shapes.push(shape(tables, net, segment)?)?;
    }
    Ok(())
}

fn shape<'a>(tables: &Tables<'a>, net: u32, segment: &'a Segment) -> Result<Drawn, AllocError>
    requires net { net < 2 }
    requires keeps { SegmentKeeps segment.now }
    ensures is { IfOk result (λ shape. shape ≡ shape_of (names_in tables.now) net segment.now) }
    ensures stands { IfOk result (ShapeStands (length tables.now.layers)) }
{
    let layer = place(&tables.layers, &segment.layer)?;
    if segment.y1 == segment.y2 {
        return Ok(along_x(net, layer, segment));
    }
    Ok(along_y(net, layer, segment))
}

fn along_x(net: u32, layer: u32, segment: &Segment) -> Drawn
    requires { SegmentKeeps segment.now }
    ensures is { result ≡ along_x net layer segment.now }
    ensures centre { IsNear result.centre }
    ensures from { IsWithin result.from }
    ensures to { IsWithin result.to }
{
    Drawn {
        net,
        layer,
        axis: Axis::X,
        centre: segment.y1,
        width: segment.width,
        from: low_end(segment.x1, segment.e1, segment.x2, segment.e2),
        to: high_end(segment.x1, segment.e1, segment.x2, segment.e2),
        shape: segment.shape,
    }
}

fn along_y(net: u32, layer: u32, segment: &Segment) -> Drawn
    requires { SegmentKeeps segment.now }
    ensures is { result ≡ along_y net layer segment.now }
    ensures centre { IsNear result.centre }
    ensures from { IsWithin result.from }
    ensures to { IsWithin result.to }
{
    Drawn {
        net,
        layer,
        axis: Axis::Y,
        centre: segment.x1,
        width: segment.width,
        from: low_end(segment.y1, segment.e1, segment.y2, segment.e2),
        to: high_end(segment.y1, segment.e1, segment.y2, segment.e2),
        shape: segment.shape,
    }
}

// Where a line from a point to another begins, each of them with its lengthening.
fn low_end(one: i64, first: i64, other: i64, second: i64) -> i64
    requires one { IsNear one }
    requires first { IsLength first }
    requires other { IsNear other }
    requires second { IsLength second }
    ensures is { result ≡ low_end one first other second }
    ensures within { IsWithin result }
{
    if other < one {
        return other - second;
    }
    one - first
}

// Where it ends.
fn high_end(one: i64, first: i64, other: i64, second: i64) -> i64
    requires one { IsNear one }
    requires first { IsLength first }
    requires other { IsNear other }
    requires second { IsLength second }
    ensures is { result ≡ high_end one first other second }
    ensures within { IsWithin result }
{
    if other < one {
        return one + first;
    }
    other + second
}
