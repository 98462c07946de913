ghost use Rattle.grid_cores.specs.Line.{LineKeeps};

use crate::same::same;
use geom_rect::{Axis, Drawn, Rect, Run, Shape};
use grid_cores::*;
use rail_layout::RowBox;
use std::alloc::Global;
use std::test::Fail;

fn rect(x1: i64, y1: i64, x2: i64, y2: i64) -> Rect {
    Rect { x1, y1, x2, y2 }
}

// Rows of the small design, of which the middle one lies in the region of the second domain.
fn rows() -> [RowBox; 3] {
    [row(0), row(5600), row(11200)]
}

fn row(y: i64) -> RowBox {
    RowBox {
        rect: Rect {
            x1: 0,
            y1: y,
            x2: 8000,
            y2: y.wrapping_add(2800),
        },
        flipped: false,
    }
}

const AON: Rect = Rect {
    x1: 0,
    y1: 5600,
    x2: 8000,
    y2: 8400,
};

#[test]
fn rows_of_two_domains(rt: HostRuntime) -> Result<(), Fail> {
    let regions = [None, Some(AON)];
    let first = rows_of(rt.alloc(), &regions, None, &rows())?;
    let second = rows_of(rt.alloc(), &regions, Some(AON), &rows())?;
    same(&rt, first.as_slice(), [row(0), row(11200)].as_slice());
    same(&rt, second.as_slice(), [row(5600)].as_slice());
    same(&rt, core_of(&first), Some(rect(0, 0, 8000, 14000)));
    same(&rt, core_of(&second), Some(AON));
    same(&rt, core_of(&[]), None);
    Ok(())
}

#[test]
fn owners_of_places(rt: HostRuntime) {
    let regions = [None, Some(AON)];
    same(&rt, domain_at(&regions, 0, 5600), Some(1));
    same(&rt, domain_at(&regions, 7999, 8399), Some(1));
    same(&rt, domain_at(&regions, 8000, 5600), Some(0));
    same(&rt, domain_at(&regions, 0, 8400), Some(0));
    same(&rt, domain_at(&[Some(AON)], 0, 8400), None);
}

#[test]
fn rows_across_a_region(rt: HostRuntime) {
    let half = rect(4000, 0, 8000, 2800);
    assert!(rt; lies_across(row(0).rect, half));
    assert!(rt; !lies_across(row(5600).rect, half));
    assert!(rt; !lies_across(row(5600).rect, AON));
}

// A strap of the small design with two domains.
fn strap(from: i64, to: i64) -> Drawn
    ensures { LineKeeps result }
{
    Drawn {
        net: 0,
        layer: 3,
        axis: Axis::Y,
        centre: 2000,
        width: 960,
        from,
        to,
        shape: Shape::Stripe,
    }
}

#[test]
fn reach_of_straps(rt: HostRuntime) {
    let core = Rect {
        x1: 0,
        y1: 0,
        x2: 8000,
        y2: 14000,
    };
    let upright = strap_reach(Axis::Y, 340, core);
    same(
        &rt,
        upright,
        Run {
            from: -170,
            to: 14170,
        },
    );
    let flat = strap_reach(Axis::X, 340, core);
    same(&rt, flat, Run { from: 0, to: 8000 });
}

#[test]
fn runs_outside_a_region(rt: HostRuntime) -> Result<(), Fail> {
    let regions = grown_regions(rt.alloc(), &[AON], 450)?;
    let lines = [strap(-170, 14170)];
    let mut shapes = Vec::new(rt.alloc());
    add_runs(rt.alloc(), &mut shapes, &lines, &regions)?;
    let left = [strap(-170, 5150), strap(8850, 14170)];
    same(&rt, shapes.as_slice(), left.as_slice());
    Ok(())
}
