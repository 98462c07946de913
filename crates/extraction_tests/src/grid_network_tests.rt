//! The small design, small cases by hand, and two large grids.
use crate::same::same;
use entry_list::Entries;
use geom_rect::{Axis, Rect, Shape};
use grid_net::{NetError, Pad};
use grid_network::*;
use grid_pieces::{Grid, Piece, StackAt};
use lef_tech::{Density, RoutingLayer, Tech};
use outside::Name;
use std::alloc::{AllocError, Global};
use std::test::Fail;
use via_arrays::{CutArray, Stack};

fn list<T>(items: Vec<T>) -> Entries<T> {
    Entries::new(items)
}

fn layer(
    alloc: Global,
    name: &[u8],
    direction: Axis,
    sheet: u64,
) -> Result<RoutingLayer, AllocError> {
    Ok(RoutingLayer {
        name: Name::new(alloc, name)?,
        direction,
        spacing: 0,
        sheet: Some(sheet),
        density: Density::Unlimited,
    })
}

const LAYERS: [(&[u8], Axis, u64); 7] = [
    (b"metal1", Axis::X, 380_000_000),
    (b"metal2", Axis::Y, 250_000_000),
    (b"metal3", Axis::X, 250_000_000),
    (b"metal4", Axis::Y, 210_000_000),
    (b"metal5", Axis::X, 210_000_000),
    (b"metal6", Axis::Y, 210_000_000),
    (b"metal7", Axis::X, 75_000_000),
];

// Seven routing layers.
fn technology(alloc: Global) -> Result<Tech, AllocError> {
    let mut routing = Vec::new(alloc);
    for (name, direction, sheet) in LAYERS {
        routing.push(layer(alloc, name, direction, sheet)?)?;
    }
    Ok(Tech {
        order: list(Vec::new(alloc)),
        routing: list(routing),
        cuts: list(Vec::new(alloc)),
        rules: list(Vec::new(alloc)),
    })
}

const ARRAY: CutArray = CutArray {
    rule: 0,
    columns: 3,
    rows: 1,
    cut_x: 140,
    cut_y: 140,
    pitch_x: 300,
    pitch_y: 300,
    lower_x: 70,
    lower_y: 0,
    upper_x: 0,
    upper_y: 70,
};

// A stack of three arrays.
fn stack(alloc: Global, net: u32, from: u32, x: i64, y: i64) -> Result<StackAt, AllocError> {
    Ok(StackAt {
        net,
        x,
        y,
        crossing: Rect {
            x1: x,
            y1: y,
            x2: x,
            y2: y,
        },
        stack: Stack {
            from,
            to: if from == 0 { 3 } else { 6 },
            arrays: list(vec![in alloc; ARRAY, ARRAY, ARRAY]?),
            ohms: list(vec![in alloc; 1_666_666_667, 1_666_666_667, 1_666_666_667]?),
        },
    })
}

fn rail(net: u32, y: i64, to: i64) -> Piece {
    Piece {
        net,
        layer: 0,
        axis: Axis::X,
        centre: y,
        width: 340,
        from: 0,
        to,
        shape: Shape::FollowPin,
    }
}

fn strap(net: u32, x: i64, to: i64) -> Piece {
    Piece {
        net,
        layer: 3,
        axis: Axis::Y,
        centre: x,
        width: 960,
        from: -170,
        to,
        shape: Shape::Stripe,
    }
}

// A grid of the nets VDD and VSS.
fn grid_of(alloc: Global, pieces: Vec<Piece>, stacks: Vec<StackAt>) -> Result<Grid, AllocError> {
    let mut nets = Vec::new(alloc);
    nets.push(Name::new(alloc, b"VDD")?)?;
    nets.push(Name::new(alloc, b"VSS")?)?;
    Ok(Grid {
        units: 2000,
        nets: list(nets),
        power: list(vec![in alloc; true, false]?),
        domains: list(Vec::new(alloc)),
        pieces: list(pieces),
        stacks: list(stacks),
    })
}

// The network of a grid that is a drawing.
fn made(
    alloc: Global,
    grid: &Grid,
    tech: &Tech,
    pads: &[PadOn],
    taps: &[Tap],
) -> Result<Extracted, ExtractError> {
    if !is_drawing(grid, tech, pads, taps) {
        return Err(ExtractError::LoadOff(0));
    }
    network(alloc, grid, tech, pads, taps)
}

// The grid of the small design.
fn small(alloc: Global) -> Result<Grid, AllocError> {
    let pieces = vec![in alloc;
        rail(0, 2800, 8000),
        strap(0, 6000, 2970),
        rail(1, 0, 8000),
        strap(1, 2000, 2970),
    ]?;
    let mut stacks = Vec::new(alloc);
    stacks.push(stack(alloc, 0, 0, 6000, 2800)?)?;
    stacks.push(stack(alloc, 1, 0, 2000, 0)?)?;
    grid_of(alloc, pieces, stacks)
}

const PADS: [PadOn; 2] = [
    PadOn {
        piece: 1,
        along: 0,
        volts: 1_100_000_000_000_000_000_000_000,
    },
    PadOn {
        piece: 3,
        along: 2800,
        volts: 0,
    },
];

const TAPS: [Tap; 2] = [
    Tap {
        piece: 0,
        along: 3800,
        low: 0,
        high: 333_300_000_000,
    },
    Tap {
        piece: 2,
        along: 3800,
        low: -333_300_000_000,
        high: 0,
    },
];

const NAMES: &[u8] =
    b"n10_2000_0 n11_2000_0 n11_2000_2800 n1_3800_2800 n1_6000_2800 n2_6000_2800 n3_6000_2800 \
    n4_6000_0 n4_6000_2800 n8_2000_0 n8_3800_0 n9_2000_0 ";

fn names_text(alloc: Global, answer: &Extracted) -> Result<Vec<u8>, AllocError> {
    let mut text = Vec::new(alloc);
    for name in answer.names.as_slice() {
        text.extend_from_slice(name.bytes())?;
        text.push(b' ')?;
    }
    Ok(text)
}

const RESISTORS: &str = "\
0 1 1666666667
0 11 1666666667
1 2 612500000
3 4 2458823529
4 5 1666666667
5 6 1666666667
6 8 1666666667
7 8 612500000
9 10 2011764706
9 11 1666666667
";

fn resistors_text(alloc: Global, answer: &Extracted) -> Result<String, AllocError> {
    let mut text = String::new(alloc);
    for r in answer.net.resistors() {
        text.push_str(&format!(in alloc; "{} {} {}\n", r.a, r.b, r.ohms)?)?;
    }
    Ok(text)
}

const BRANCHES: [Branch; 10] = [
    Branch::Cuts(1, 2),
    Branch::Cuts(1, 1),
    Branch::Wire(3),
    Branch::Wire(0),
    Branch::Cuts(0, 0),
    Branch::Cuts(0, 1),
    Branch::Cuts(0, 2),
    Branch::Wire(1),
    Branch::Wire(2),
    Branch::Cuts(1, 0),
];

const NOTES: &[u8] =
    b"metal1,VDD 1 metal2,VDD 2 metal3,VDD 3 metal4,VDD 4 metal1,VSS 8 metal2,VSS 9 metal3,VSS 10 \
    metal4,VSS 11 ";

fn notes_text(alloc: Global, answer: &Extracted) -> Result<Vec<u8>, AllocError> {
    let mut text = Vec::new(alloc);
    for note in answer.notes.as_slice() {
        text.extend_from_slice(note.layer.bytes())?;
        text.push(b',')?;
        text.extend_from_slice(note.net.bytes())?;
        text.extend_from_slice(format!(in alloc; " {} ", note.number)?.as_bytes())?;
    }
    Ok(text)
}

// Every name and every value of the small design.
#[test]
fn small_design(rt: HostRuntime) -> Result<(), Fail> {
    let alloc = rt.alloc();
    let answer = made(alloc, &small(alloc)?, &technology(alloc)?, &PADS, &TAPS)?;
    assert!(rt; answer.net.nodes() == 12);
    same(&rt, names_text(alloc, &answer)?.as_slice(), NAMES);
    same(&rt, resistors_text(alloc, &answer)?.as_str(), RESISTORS);
    same(&rt, answer.branches.as_slice(), BRANCHES.as_slice());
    same(&rt, notes_text(alloc, &answer)?.as_slice(), NOTES);
    assert!(rt; answer.net.pads().len() == 2);
    Ok(())
}

// A grid without stacks.
fn flat(alloc: Global, pieces: &[Piece]) -> Result<Grid, AllocError> {
    grid_of(alloc, pieces.to_vec(alloc)?, Vec::new(alloc))
}

fn pad(piece: u32, along: i64, volts: i128) -> PadOn {
    PadOn {
        piece,
        along,
        volts,
    }
}

fn tap(piece: u32, along: i64, low: i64, high: i64) -> Tap {
    Tap {
        piece,
        along,
        low,
        high,
    }
}

// 0.38 ohms a square, 112000 units long and 960 wide.
#[test]
fn resistance_of_a_wire(rt: HostRuntime) -> Result<(), Fail> {
    let tech = technology(rt.alloc())?;
    let piece = Piece {
        width: 960,
        ..rail(0, 2800, 112_000)
    };
    let grid = flat(rt.alloc(), &[piece])?;
    let pads = [pad(0, 0, 1), pad(0, 112_000, 1)];
    let answer = made(rt.alloc(), &grid, &tech, &pads, &[])?;
    let resistors = answer.net.resistors();
    assert!(rt; resistors.len() == 1);
    same(&rt, resistors[0].ohms, 44_333_333_333);
    Ok(())
}

#[test]
fn two_taps_at_one_place(rt: HostRuntime) -> Result<(), Fail> {
    let tech = technology(rt.alloc())?;
    let grid = flat(rt.alloc(), &[rail(0, 2800, 8000)])?;
    let taps = [tap(0, 500, -1, 7), tap(0, 500, 3, 11)];
    let answer = made(rt.alloc(), &grid, &tech, &[], &taps)?;
    assert!(rt; answer.net.nodes() == 1);
    assert!(rt; answer.net.resistors().len() == 0);
    same(&rt, answer.net.load(0), (2, 18));
    Ok(())
}

// Two pieces of one layer whose centre lines meet: a pad where they meet stands on both, at one node.
#[test]
fn pad_on_two_pieces(rt: HostRuntime) -> Result<(), Fail> {
    let tech = technology(rt.alloc())?;
    let across = Piece {
        axis: Axis::X,
        centre: 1000,
        from: 5000,
        to: 9000,
        ..strap(0, 0, 0)
    };
    let grid = flat(rt.alloc(), &[strap(0, 6000, 2970), across])?;
    let taps = [tap(0, 0, 1, 1), tap(1, 9000, 1, 1)];
    let pads = [pad(0, 1000, 9), pad(1, 6000, 9)];
    let answer = made(rt.alloc(), &grid, &tech, &pads, &taps)?;
    assert!(rt; answer.net.nodes() == 3);
    assert!(rt; answer.net.resistors().len() == 2);
    let standing = answer.net.pads();
    assert!(rt; standing.len() == 1);
    same(&rt, standing[0], Pad { node: 1, volts: 9 });
    let pads = [pad(0, 1000, 9), pad(1, 6000, 8)];
    let conflict = NetError::PadConflict {
        node: 1,
        first: 9,
        second: 8,
    };
    match made(rt.alloc(), &grid, &tech, &pads, &taps) {
        Ok(_) => assert!(rt; false),
        Err(error) => same(&rt, error, ExtractError::Net(conflict)),
    }
    Ok(())
}

// What is no drawing: a place behind its piece, a piece that is none, a layer that is none, and ends in the wrong order.
#[test]
fn no_drawing(rt: HostRuntime) -> Result<(), Fail> {
    let tech = technology(rt.alloc())?;
    let grid = flat(rt.alloc(), &[rail(0, 2800, 8000)])?;
    assert!(rt; is_drawing(&grid, &tech, &[pad(0, 8000, 0)], &[tap(0, 0, 2, 2)]));
    assert!(rt; !is_drawing(&grid, &tech, &[pad(0, 8001, 0)], &[]));
    assert!(rt; !is_drawing(&grid, &tech, &[pad(1, 0, 0)], &[]));
    assert!(rt; !is_drawing(&grid, &tech, &[], &[tap(0, -1, 0, 0)]));
    assert!(rt; !is_drawing(&grid, &tech, &[], &[tap(0, 0, 2, 1)]));
    let above = flat(
        rt.alloc(),
        &[Piece {
            layer: 7,
            ..rail(0, 0, 1)
        }],
    )?;
    assert!(rt; !is_drawing(&above, &tech, &[], &[]));
    let thin = flat(
        rt.alloc(),
        &[Piece {
            width: 1,
            ..rail(0, 0, 1)
        }],
    )?;
    assert!(rt; !is_drawing(&thin, &tech, &[], &[]));
    Ok(())
}

// One piece with a load at each of its first 500,000 units.
#[test]
fn half_a_million_taps(rt: HostRuntime) -> Result<(), Fail> {
    let alloc = rt.alloc();
    let tech = technology(alloc)?;
    let piece = Piece {
        width: 400,
        ..rail(0, 0, 500_000)
    };
    let grid = flat(alloc, &[piece])?;
    let mut taps = Vec::new(alloc);
    for along in 0..500_000i64 {
        taps.push(tap(0, along, 1, 1))?;
    }
    let answer = made(alloc, &grid, &tech, &[], &taps)?;
    assert!(rt; answer.net.nodes() == 500_000);
    assert!(rt; answer.net.resistors().len() == 499_999);
    Ok(())
}
