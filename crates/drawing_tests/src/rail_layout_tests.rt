use crate::same::same_at;
use geom_rect::{Axis, Drawn, Rect, Run, Shape};
use rail_layout::*;
use std::test::Fail;

// A row of height 2800 from 0 to 8000.
fn row(y: i64, flipped: bool) -> RowBox {
    let y2 = y.wrapping_add(2800);
    let rect = Rect {
        x1: 0,
        y1: y,
        x2: 8000,
        y2,
    };
    RowBox { rect, flipped }
}

// A rail of ground, net 4, or of power, net 2.
fn rail(net: u32, centre: i64, from: i64, to: i64) -> Drawn {
    Drawn {
        net,
        layer: 0,
        axis: Axis::X,
        centre,
        width: 340,
        from,
        to,
        shape: Shape::FollowPin,
    }
}

#[test]
fn rails_of_rows(rt: HostRuntime) -> Result<(), Fail> {
    let along = RailRule {
        layer: 0,
        width: 340,
        ground: 4,
        power: 2,
        ground_reach: None,
        power_reach: None,
    };
    let reaching = RailRule {
        power_reach: Some(Run {
            from: -100,
            to: 9000,
        }),
        ..along
    };
    let cases: [(&str, RailRule, &[RowBox], &[Drawn]); 4] = [
        (
            "rails share an edge",
            along,
            &[row(0, false), row(2800, true)],
            &[
                rail(4, 0, 0, 8000),
                rail(2, 2800, 0, 8000),
                rail(2, 2800, 0, 8000),
                rail(4, 5600, 0, 8000),
            ],
        ),
        (
            "an edge with both nets",
            along,
            &[row(0, false), row(2800, false)],
            &[
                rail(4, 0, 0, 8000),
                rail(2, 2800, 0, 8000),
                rail(4, 2800, 0, 8000),
                rail(2, 5600, 0, 8000),
            ],
        ),
        (
            "a stated reach of power",
            reaching,
            &[row(0, true)],
            &[rail(2, 0, -100, 9000), rail(4, 2800, 0, 8000)],
        ),
        ("no row", along, &[], &[]),
    ];
    for (name, rule, rows, want) in cases {
        let drawn = rails(rt.alloc(), &rule, rows)?;
        same_at(&rt, drawn.as_slice(), want, name);
    }
    Ok(())
}
