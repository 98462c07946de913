ghost use Rattle.std.specs.Prelude.{◌≡◌};
ghost use Rattle.ring_layout.specs.declared.rule.RingRule.{RingRule};

use crate::same::same;
use entry_list::Entries;
use geom_rect::{Axis, Drawn, Rect, Shape};
use ring_layout::*;
use std::test::Fail;

// A rule whose widths, spacings and offsets all have one length.
fn even(nets: Entries<u32>, length: i64) -> RingRule
    ensures { result ≡ record {
      vertical = 3;
      horizontal = 6;
      nets = nets;
      width_v = length;
      width_h = length;
      spacing_v = length;
      spacing_h = length;
      left = length;
      bottom = length;
      right = length;
      top = length;
    } }
{
    RingRule {
        vertical: 3,
        horizontal: 6,
        nets,
        width_v: length,
        width_h: length,
        spacing_v: length,
        spacing_h: length,
        left: length,
        bottom: length,
        right: length,
        top: length,
    }
}

// A side of a ring of a net, along an axis.
fn side(net: u32, axis: Axis, width: i64, centre: i64, from: i64, to: i64) -> Drawn {
    let layer = match axis {
        Axis::X => 6,
        Axis::Y => 3,
    };
    Drawn {
        net,
        layer,
        axis,
        centre,
        width,
        from,
        to,
        shape: Shape::Ring,
    }
}

#[test]
fn ring_sides(rt: HostRuntime) -> Result<(), Fail> {
    let rule = even(Entries::new(vec![in rt.alloc(); 9, 4]?), 4000);
    let core = Rect {
        x1: 0,
        y1: 0,
        x2: 200_000,
        y2: 200_000,
    };
    let drawn = rings(rt.alloc(), &rule, core)?;
    let want = [
        side(9, Axis::Y, 4000, -6000, -8000, 208_000),
        side(9, Axis::X, 4000, -6000, -8000, 208_000),
        side(9, Axis::Y, 4000, 206_000, -8000, 208_000),
        side(9, Axis::X, 4000, 206_000, -8000, 208_000),
        side(4, Axis::Y, 4000, -14_000, -16_000, 216_000),
        side(4, Axis::X, 4000, -14_000, -16_000, 216_000),
        side(4, Axis::Y, 4000, 214_000, -16_000, 216_000),
        side(4, Axis::X, 4000, 214_000, -16_000, 216_000),
    ];
    same(&rt, drawn.as_slice(), want.as_slice());
    Ok(())
}

// The small design's core, with widths, spacings and offsets of one micrometre.
#[test]
fn a_ring_of_the_small_core(rt: HostRuntime) -> Result<(), Fail> {
    let rule = even(Entries::new(vec![in rt.alloc(); 0, 1]?), 2000);
    let core = Rect {
        x1: 0,
        y1: 0,
        x2: 8000,
        y2: 2800,
    };
    let drawn = rings(rt.alloc(), &rule, core)?;
    assert!(rt; drawn.len() == 8);
    same(&rt, drawn[0], side(0, Axis::Y, 2000, -3000, -4000, 6800));
    same(&rt, drawn[7], side(1, Axis::X, 2000, 9800, -8000, 16_000));
    Ok(())
}

// All lengths differ, and the offset at the right leads inward.
#[test]
fn a_ring_of_unequal_lengths(rt: HostRuntime) -> Result<(), Fail> {
    let rule = RingRule {
        vertical: 3,
        horizontal: 6,
        nets: Entries::new(vec![in rt.alloc(); 0]?),
        width_v: 200,
        width_h: 60,
        spacing_v: 7,
        spacing_h: 9,
        left: 10,
        bottom: 3,
        right: -1000,
        top: 5,
    };
    let core = Rect {
        x1: 0,
        y1: 0,
        x2: 8000,
        y2: 2800,
    };
    let drawn = rings(rt.alloc(), &rule, core)?;
    let want = [
        side(0, Axis::Y, 200, -110, -63, 2865),
        side(0, Axis::X, 60, -33, -210, 7200),
        side(0, Axis::Y, 200, 7100, -63, 2865),
        side(0, Axis::X, 60, 2835, -210, 7200),
    ];
    same(&rt, drawn.as_slice(), want.as_slice());
    Ok(())
}
