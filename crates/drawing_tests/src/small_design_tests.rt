//! The grid of the small design: its DEF, worked out by hand, and that DEF read back.
ghost use Rattle.std.specs.Prelude.{IfOk};
ghost use Rattle.drawing_tests.specs.inside.Written.{IsSmallStack, IsSmallGrid};

use crate::same::same;
use def_design::read_design;
use def_writer::def_text;
use entry_list::Entries;
use geom_rect::{Axis, Rect, Shape};
use grid_gen::TECHNOLOGY;
use grid_pieces::{Grid, Piece, StackAt};
use lef_tech::read_tech;
use outside::Name;
use small_design::{DESIGN, WRITTEN};
use std::alloc::{AllocError, Global};
use std::test::Fail;
use via_arrays::{CutArray, Stack};
use wiring_file::read_wiring;

/// A rail and a strap for each of the nets VDD and VSS.
const PIECES: [Piece; 4] = [
    Piece {
        net: 0,
        layer: 0,
        axis: Axis::X,
        centre: 2800,
        width: 340,
        from: 0,
        to: 8000,
        shape: Shape::FollowPin,
    },
    Piece {
        net: 0,
        layer: 3,
        axis: Axis::Y,
        centre: 6000,
        width: 960,
        from: -170,
        to: 2970,
        shape: Shape::Stripe,
    },
    Piece {
        net: 1,
        layer: 0,
        axis: Axis::X,
        centre: 0,
        width: 340,
        from: 0,
        to: 8000,
        shape: Shape::FollowPin,
    },
    Piece {
        net: 1,
        layer: 3,
        axis: Axis::Y,
        centre: 2000,
        width: 960,
        from: -170,
        to: 2970,
        shape: Shape::Stripe,
    },
];

/// The arrays of a crossing of a rail and a strap: three columns and one row of cuts.
const ARRAYS: [CutArray; 3] = [
    CutArray {
        rule: 0,
        columns: 3,
        rows: 1,
        cut_x: 140,
        cut_y: 140,
        pitch_x: 300,
        pitch_y: 300,
        lower_x: 70,
        lower_y: 0,
        upper_x: 0,
        upper_y: 70,
    },
    CutArray {
        rule: 1,
        columns: 3,
        rows: 1,
        cut_x: 140,
        cut_y: 140,
        pitch_x: 300,
        pitch_y: 300,
        lower_x: 0,
        lower_y: 70,
        upper_x: 70,
        upper_y: 0,
    },
    CutArray {
        rule: 2,
        columns: 3,
        rows: 1,
        cut_x: 140,
        cut_y: 140,
        pitch_x: 300,
        pitch_y: 300,
        lower_x: 70,
        lower_y: 0,
        upper_x: 0,
        upper_y: 70,
    },
];

/// A stack of these arrays.
fn stack(alloc: Global, net: u32, x: i64, y: i64) -> Result<StackAt, AllocError>
    ensures { IfOk result (IsSmallStack net x y) }
{
    Ok(StackAt {
        net,
        x,
        y,
        crossing: Rect {
            x1: 0,
            y1: 0,
            x2: 0,
            y2: 0,
        },
        stack: Stack {
            from: 0,
            to: 3,
            arrays: Entries::new(Vec::from_slice(alloc, &ARRAYS)?),
            ohms: Entries::new(Vec::new(alloc)),
        },
    })
}

/// The grid of the small design.
fn small_grid(alloc: Global) -> Result<Grid, AllocError>
    ensures { IfOk result IsSmallGrid }
{
    let mut nets = Vec::new(alloc);
    nets.push(Name::new(alloc, b"VDD")?)?;
    nets.push(Name::new(alloc, b"VSS")?)?;
    let mut stacks = Vec::new(alloc);
    stacks.push(stack(alloc, 0, 6000, 2800)?)?;
    stacks.push(stack(alloc, 1, 2000, 0)?)?;
    Ok(Grid {
        units: 2000,
        nets: Entries::new(nets),
        power: Entries::new(Vec::from_slice(alloc, &[true, false])?),
        domains: Entries::new(Vec::new(alloc)),
        pieces: Entries::new(Vec::from_slice(alloc, &PIECES)?),
        stacks: Entries::new(stacks),
    })
}

#[test]
fn small_design_as_def(rt: HostRuntime) -> Result<(), Fail> {
    let tech = read_tech(rt.alloc(), TECHNOLOGY)?;
    let design = read_design(rt.alloc(), DESIGN)?;
    let grid = small_grid(rt.alloc())?;
    assert!(rt; 4 <= tech.routing.as_slice().len());
    assert!(rt; 3 <= tech.rules.as_slice().len());
    let text = def_text(rt.alloc(), &design, &tech, &grid)?;
    same(&rt, text.as_slice(), WRITTEN);
    Ok(())
}

#[test]
fn small_design_read_back(rt: HostRuntime) -> Result<(), Fail> {
    let tech = read_tech(rt.alloc(), TECHNOLOGY)?;
    let design = read_design(rt.alloc(), DESIGN)?;
    let grid = small_grid(rt.alloc())?;
    assert!(rt; 4 <= tech.routing.as_slice().len());
    assert!(rt; 3 <= tech.rules.as_slice().len());
    let text = def_text(rt.alloc(), &design, &tech, &grid)?;
    let wiring = read_wiring(rt.alloc(), text.as_slice())?;
    assert!(rt; wiring.vias.as_slice().len() == 3);
    assert!(rt; wiring.wires.as_slice().len() == 4);
    assert!(rt; wiring.places.as_slice().len() == 6);
    let via = &wiring.vias.as_slice()[1];
    same(&rt, via.name.bytes(), b"pdn_2_3_1".as_slice());
    same(&rt, (via.rows, via.columns), (1, 3));
    let wire = &wiring.wires.as_slice()[3];
    same(&rt, wire.net.bytes(), b"VSS".as_slice());
    same(
        &rt,
        (wire.x1, wire.y1, wire.x2, wire.y2),
        (2000, -170, 2000, 2970),
    );
    let place = &wiring.places.as_slice()[2];
    same(&rt, place.layer.bytes(), b"metal3".as_slice());
    same(&rt, place.via.bytes(), b"pdn_3_3_1".as_slice());
    same(&rt, (place.x, place.y), (6000, 2800));
    Ok(())
}
