//! Segments of paths, and vias at their points.
ghost use Rattle.std.specs.Prelude.{◌≡◌, ◌⊎◌, IfOk, OnOk};
ghost use Rattle.def_wiring.specs.Number.{IsNumber};
ghost use Rattle.def_wiring.specs.Path.{point_of};
ghost use Rattle.def_wiring.specs.Record.{HasShape, IsReach, SaysSegment, SaysPlace, place_of};

use crate::label::Label;
use crate::number::{Quantity, number_of};
use crate::path::{Path, Point, last_x, last_y};
use crate::record::{Segment, ViaPlace};
use crate::sort::Sort;
use geom_rect::Shape;
use outside::Name;
use std::alloc::{AllocError, Global};

/// The shape of a segment between these second coordinates.
fn shape_of(sort: Sort, y1: i64, y2: i64) -> Shape
    ensures { HasShape sort y1 y2 result }
{
    match sort {
        Sort::Ring => Shape::Ring,
        Sort::FollowPin => follow_shape(y1, y2),
        _ => Shape::Stripe,
    }
}

/// The shape of a segment of FOLLOWPIN.
fn follow_shape(y1: i64, y2: i64) -> Shape
    ensures { HasShape Sort.FollowPin y1 y2 result }
{
    if y1 == y2 {
        Shape::FollowPin
    } else {
        Shape::Stripe
    }
}

/// The lengthening at a point.
fn reach_of(reach: &Option<Label<'_>>) -> Result<i64, AllocError>
    ensures { IfOk result (IsReach reach.now) }
{
    match reach {
        Some(text) => number_of(Quantity::NotNegative, text.bytes()),
        None => Ok(0),
    }
}

/// The coordinate that the word is.
fn coordinate_of(label: &Label<'_>) -> Result<i64, AllocError>
    ensures { IfOk result (IsNumber Quantity.Any label.now) }
{
    number_of(Quantity::Any, label.bytes())
}

/// The width that the word is.
fn width_of(label: &Label<'_>) -> Result<i64, AllocError>
    ensures { IfOk result (IsNumber Quantity.NotNegative label.now) }
{
    number_of(Quantity::NotNegative, label.bytes())
}

/// A point in numbers.
#[derive(Clone, Copy, Debug)]
struct Spot {
    x: i64,
    y: i64,
    e: i64,
}

/// The point that these words are.
fn spot_of(x: &Label<'_>, y: &Label<'_>, reach: &Option<Label<'_>>) -> Result<Spot, AllocError>
    ensures x { IfOk result (λ spot. IsNumber Quantity.Any x.now spot.x) }
    ensures y { IfOk result (λ spot. IsNumber Quantity.Any y.now spot.y) }
    ensures e { IfOk result (λ spot. IsReach reach.now spot.e) }
{
    Ok(Spot {
        x: coordinate_of(x)?,
        y: coordinate_of(y)?,
        e: reach_of(reach)?,
    })
}

/// Nothing, where the segment between the points is straight, and else want of memory, which never comes.
fn straight(x1: i64, x2: i64, y1: i64, y2: i64) -> Result<(), AllocError>
    ensures { OnOk result ((x1 ≡ x2) ⊎ (y1 ≡ y2)) }
{
    if x1 == x2 {
        return Ok(());
    }
    if y1 == y2 {
        return Ok(());
    }
    Err(AllocError)
}

/// The segment to the point that ends.
pub(crate) fn segment_of(
    alloc: Global,
    path: &Path<'_>,
    from: &Point<'_>,
) -> Result<Segment, AllocError>
    ensures { IfOk result (SaysSegment (record { layer = path.now.layer; width = path.now.width; shape = path.now.shape; from = from.now; to = point_of path.now })) }
{
    let one = spot_of(&from.x, &from.y, &from.reach)?;
    let two = spot_of(&path.x, &path.y, &path.reach)?;
    straight(one.x, two.x, one.y, two.y)?;
    let layer = Name::new(alloc, path.layer.bytes())?;
    let width = width_of(&path.width)?;
    Ok(Segment {
        layer,
        width,
        shape: shape_of(path.shape, one.y, two.y),
        x1: one.x,
        y1: one.y,
        e1: one.e,
        x2: two.x,
        y2: two.y,
        e2: two.e,
    })
}

/// The via of this name at the path's point.
pub(crate) fn via_place(alloc: Global, path: &Path<'_>, via: &[u8]) -> Result<ViaPlace, AllocError>
    ensures says { IfOk result (SaysPlace (place_of path.now via.now)) }
    ensures via { IfOk result (λ place. place.via ≡ via.now) }
{
    let first = last_x(&path.last);
    let second = last_y(&path.last);
    let name = Name::new(alloc, via)?;
    let layer = Name::new(alloc, path.layer.bytes())?;
    let x = coordinate_of(&first)?;
    let y = coordinate_of(&second)?;
    Ok(ViaPlace {
        via: name,
        layer,
        x,
        y,
    })
}
