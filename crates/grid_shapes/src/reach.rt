//! From where to where straps and rails go.
ghost use Rattle.std.specs.Prelude.{◌≡◌, ◌+◌, ◌^◌, IfOk};
ghost use Rattle.std.specs.Option.{unwrap_or};
ghost use Rattle.geom_rect.specs.Drawn.{drawn_run};
ghost use Rattle.grid_cores.specs.Line.{along};
ghost use Rattle.grid_plan.specs.Keeping.{LiesNear, most_of_rows};
ghost use Rattle.grid_shapes.specs.Site.{same_axis, is_side, ring_reach, stated_reach, strap_reaches};
ghost use Rattle.grid_shapes.specs.inside.Sites.{IsSite, IsEvenWidth};

use crate::site::Site;
use geom_rect::{Axis, Drawn, Rect, Run};
use grid_cores::strap_reach;
use grid_plan::{Plan, Reach, Straps};
use std::alloc::{AllocError, Global};

// The reach of each net of straps.
pub(crate) fn strap_reaches(
    alloc: Global,
    plan: &Plan,
    site: &Site,
    straps: &Straps,
) -> Result<Vec<Run>, AllocError>
    requires site { IsSite plan.now straps.now.grid site.now }
    requires near { LiesNear most_of_rows site.now.core }
    requires widest { IsEvenWidth site.now.widest }
    ensures { IfOk result (λ reaches. reaches.items ≡ strap_reaches plan.now straps.now site.now.core) }
{
    let axis = straps.rule.axis;
    let core = strap_reach(axis, site.widest, site.core);
    let mut reaches = Vec::new(alloc);
    for net in straps.rule.nets.as_slice() {
        reaches.push(reach_or(
            stated_reach(straps.reach, axis, plan.die, &site.sides, *net),
            core,
        ))?;
    }
    Ok(reaches)
}

fn reach_or(stated: Option<Run>, run: Run) -> Run
    ensures { result ≡ unwrap_or stated run }
{
    match stated {
        Some(stated) => stated,
        None => run,
    }
}

// The reach that an option states for a net, along an axis.
pub(crate) fn stated_reach(
    reach: Reach,
    axis: Axis,
    die: Rect,
    sides: &[Drawn],
    net: u32,
) -> Option<Run>
    ensures { result ≡ stated_reach reach axis die sides.now net }
{
    match reach {
        Reach::Die => Some(along(axis, die)),
        Reach::Ring => ring_reach(axis, sides, net),
        Reach::Core => None,
    }
}

// Between the outer edges of the outermost ring of a net: a side of it goes there, and rings are drawn outward.
fn ring_reach(axis: Axis, sides: &[Drawn], net: u32) -> Option<Run>
    ensures { result ≡ ring_reach axis net sides.now }
{
    let mut reach = None;
    for side in sides {
        if is_side(axis, net, side) {
            reach = Some(run_of(*side));
        }
    }
    reach
}

fn run_of(side: Drawn) -> Run
    ensures { result ≡ drawn_run side }
{
    Run {
        from: side.from,
        to: side.to,
    }
}

fn is_side(axis: Axis, net: u32, side: &Drawn) -> bool
    ensures { result ≡ is_side axis net side.now }
{
    side.net == net && same_axis(side.axis, axis)
}

fn same_axis(one: Axis, other: Axis) -> bool
    ensures { result ≡ same_axis one other }
{
    match (one, other) {
        (Axis::X, Axis::X) | (Axis::Y, Axis::Y) => true,
        _ => false,
    }
}

fn along(axis: Axis, rect: Rect) -> Run
    ensures { result ≡ along axis rect }
{
    match axis {
        Axis::X => Run {
            from: rect.x1,
            to: rect.x2,
        },
        Axis::Y => Run {
            from: rect.y1,
            to: rect.y2,
        },
    }
}
