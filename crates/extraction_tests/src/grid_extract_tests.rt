ghost use Rattle.std.specs.Prelude.{◌≢◌, ◌<◌, ℕ, List, IsTrue, length, slice_index_or};
ghost use Rattle.name_table.specs.Numbering.{AreDistinct};
ghost use Rattle.grid_extract.specs.Extraction.{GridKeeps};

use crate::same::same;
use bias_file::read_bias;
use def_design::read_design;
use entry_list::Entries;
use geom_rect::{Axis, Rect, Shape};
use grid_extract::*;
use grid_net::{NetError, Quantity, Resistor};
use grid_network::{ExtractError, Extracted, is_drawing};
use grid_pieces::{DomainAt, Grid, Piece, StackAt};
use lef_cells::read_cells;
use lef_tech::{Tech, read_tech};
use outside::Name;
use std::alloc::{AllocError, Global};
use std::process::Abort;
use std::test::Fail;
use via_arrays::{CutArray, Stack};

const LEF: &[u8] = b"
LAYER metal1 TYPE ROUTING ; DIRECTION HORIZONTAL ; RESISTANCE RPERSQ 0.38 ; END metal1
LAYER metal2 TYPE ROUTING ; DIRECTION VERTICAL ; END metal2
LAYER metal3 TYPE ROUTING ; DIRECTION HORIZONTAL ; END metal3
LAYER metal4 TYPE ROUTING ; DIRECTION VERTICAL ; RESISTANCE RPERSQ 0.21 ; END metal4
LAYER metal5 TYPE ROUTING ; DIRECTION HORIZONTAL ; END metal5
LAYER metal6 TYPE ROUTING ; DIRECTION VERTICAL ; END metal6
LAYER metal7 TYPE ROUTING ; DIRECTION HORIZONTAL ; END metal7
END LIBRARY
";

const CELLS: &[u8] = b"MACRO C0 CLASS CORE ; SIZE 1.4 BY 1.4 ; END C0 END LIBRARY";

const DEF: &[u8] = b"
DESIGN small ;
UNITS DISTANCE MICRONS 2000 ;
DIEAREA ( 0 0 ) ( 8000 2800 ) ;
COMPONENTS 2 ;
- u1 C0 + PLACED ( 2400 0 ) N ;
- u2 C0 ;
END COMPONENTS
END DESIGN
";

const ARRAY: CutArray = CutArray {
    rule: 0,
    columns: 3,
    rows: 1,
    cut_x: 140,
    cut_y: 140,
    pitch_x: 300,
    pitch_y: 300,
    lower_x: 70,
    lower_y: 0,
    upper_x: 0,
    upper_y: 70,
};

// A stack from metal1 to metal4.
fn stack(alloc: Global, net: u32, x: i64, y: i64) -> Result<StackAt, AllocError> {
    Ok(StackAt {
        net,
        x,
        y,
        crossing: Rect {
            x1: x,
            y1: y,
            x2: x,
            y2: y,
        },
        stack: Stack {
            from: 0,
            to: 3,
            arrays: Entries::new(vec![in alloc; ARRAY, ARRAY, ARRAY]?),
            ohms: Entries::new(vec![in alloc; 1_666_666_667, 1_666_666_667, 1_666_666_667]?),
        },
    })
}

fn piece(net: u32, axis: Axis, centre: i64) -> Piece {
    let (layer, width, from, to, shape) = match axis {
        Axis::X => (0, 340, 0, 8000, Shape::FollowPin),
        Axis::Y => (3, 960, -170, 2970, Shape::Stripe),
    };
    Piece {
        net,
        layer,
        axis,
        centre,
        width,
        from,
        to,
        shape,
    }
}

// The grid of the small design: a rail, a strap and a stack of each net.
fn small_grid(alloc: Global) -> Result<Grid, AllocError> {
    Ok(Grid {
        units: 2000,
        nets: Entries::new(vec![in alloc; Name::new(alloc, b"VDD")?, Name::new(alloc, b"VSS")?]?),
        power: Entries::new(vec![in alloc; true, false]?),
        domains: Entries::new(vec![in alloc;
            DomainAt {
                region: None,
                ground: 1,
                power: 0,
            },
        ]?),
        pieces: Entries::new(vec![in alloc;
            piece(0, Axis::X, 2800),
            piece(0, Axis::Y, 6000),
            piece(1, Axis::X, 0),
            piece(1, Axis::Y, 2000),
        ]?),
        stacks: Entries::new(vec![in alloc;
            stack(alloc, 0, 6000, 2800)?,
            stack(alloc, 1, 2000, 0)?,
        ]?),
    })
}

fn is_new(names: &[Name], k: usize) -> bool
    requires { k < length names.now }
    ensures { IsTrue result → (j : ℕ) (d : List ℕ) → j < k → slice_index_or names.now j d ≢ slice_index_or names.now k d }
{
    for j in 0..k {
        if names[j].bytes() == names[k].bytes() {
            return false;
        }
    }
    true
}

fn are_distinct(names: &[Name]) -> bool
    ensures { IsTrue result → AreDistinct names.now }
{
    for k in 0..names.len() {
        if !is_new(names, k) {
            return false;
        }
    }
    true
}

// Whether a network may be extracted from the grid.
fn is_grid(grid: &Grid, tech: &Tech) -> bool
    ensures { IsTrue result → GridKeeps grid.now tech.now }
{
    grid.units >= 1
        && grid.units <= 20_000
        && are_distinct(grid.nets.as_slice())
        && is_drawing(grid, tech, &[], &[])
}

// The network of the small design with this bias file.
fn small(
    rt: &impl Abort,
    alloc: Global,
    bias: &[u8],
) -> Result<Result<Extracted, ExtractError>, Fail> {
    let grid = small_grid(alloc)?;
    let tech = read_tech(alloc, LEF)?;
    let cells = read_cells(alloc, CELLS)?;
    let design = read_design(alloc, DEF)?;
    let bias = read_bias(alloc, bias)?;
    assert!(rt; is_grid(&grid, &tech));
    Ok(extract(alloc, &grid, &tech, &cells, &design, &bias))
}

// The names of the nodes, each with a blank after it.
fn names_of(alloc: Global, extracted: &Extracted) -> Result<Vec<u8>, AllocError> {
    let mut text = Vec::new(alloc);
    for name in extracted.names.as_slice() {
        text.extend_from_slice(name.bytes())?;
        text.push(b' ')?;
    }
    Ok(text)
}

const RESISTORS: [(u32, u32, i128); 10] = [
    (0, 1, 1_666_666_667),
    (0, 11, 1_666_666_667),
    (1, 2, 612_500_000),
    (3, 4, 2_458_823_529),
    (4, 5, 1_666_666_667),
    (5, 6, 1_666_666_667),
    (6, 8, 1_666_666_667),
    (7, 8, 612_500_000),
    (9, 10, 2_011_764_706),
    (9, 11, 1_666_666_667),
];

fn same_resistors(resistors: &[Resistor]) -> bool {
    resistors.len() == RESISTORS.len()
        && resistors.iter().zip(RESISTORS.iter()).all(|(r, want)| r.a == want.0
            && r.b == want.1
            && r.ohms == want.2)
}

#[test]
fn small_design(rt: HostRuntime) -> Result<(), Fail> {
    let bias =
        b"supply VDD 1.1\nsupply VSS 0\ninstance u1 0 333.3u\npad VDD metal4 3 0\npad VSS metal4 1 1.4\n";
    let Ok(extracted) = small(&rt, rt.alloc(), bias)? else {
        assert!(rt; false, "refused");
        return Ok(());
    };
    let names = names_of(rt.alloc(), &extracted)?;
    same(
        &rt,
        names.as_slice(),
        b"n10_2000_0 n11_2000_0 n11_2000_2800 n1_3800_2800 n1_6000_2800 n2_6000_2800 n3_6000_2800 n4_6000_0 n4_6000_2800 n8_2000_0 n8_3800_0 n9_2000_0 ".as_slice(),
    );
    let net = &extracted.net;
    assert!(rt; net.nodes() == 12);
    assert!(rt; same_resistors(net.resistors()));
    same(&rt, net.pad(2), Some(0));
    same(&rt, net.pad(7), Some(1_100_000_000_000_000_000_000_000));
    assert!(rt; net.pads().len() == 2);
    same(&rt, net.load(3), (0, 333_300_000_000));
    same(&rt, net.load(10), (-333_300_000_000, 0));
    Ok(())
}

// The edge of the power strap is a place on it; one unit beyond it, at 6481, there is no metal.
#[test]
fn pad_on_the_strap_edge(rt: HostRuntime) -> Result<(), Fail> {
    let beyond = small(
        &rt,
        rt.alloc(),
        b"supply VDD 1.1\nsupply VSS 0\npad VDD metal4 3.2405 0",
    )?;
    assert!(rt; is_refused(beyond, ExtractError::PadOff(3)));
    let edge = small(
        &rt,
        rt.alloc(),
        b"supply VDD 1.1\nsupply VSS 0\npad VDD metal4 3.24 0",
    )?;
    let Ok(extracted) = edge else {
        assert!(rt; false, "refused");
        return Ok(());
    };
    let names = names_of(rt.alloc(), &extracted)?;
    same(
        &rt,
        names.as_slice(),
        b"n10_2000_0 n11_2000_0 n1_6000_2800 n2_6000_2800 n3_6000_2800 n4_6000_0 n4_6000_2800 n8_2000_0 n9_2000_0 ".as_slice(),
    );
    let net = &extracted.net;
    assert!(rt; net.nodes() == 9);
    assert!(rt; net.pads().len() == 1);
    same(&rt, net.pad(5), Some(1_100_000_000_000_000_000_000_000));
    Ok(())
}

// Two causes at once for each two kinds that follow on each other: a name that is not known, a supply that lacks, a pad
// that is off, a load that is off, and loads beyond their limit. Of names the earliest line goes first.
const REFUSALS: [(&[u8], ExtractError); 8] = [
    (b"cell C9 1\nsupply X 1", ExtractError::UnknownName(1)),
    (b"supply X 1\ncell C9 1", ExtractError::UnknownName(1)),
    (b"supply VDD 1\ninstance u9 1", ExtractError::UnknownName(2)),
    (
        b"supply VDD 1\npad VDD metal4 9 0",
        ExtractError::NoSupply(1),
    ),
    (b"supply VDD 1\ncell C0 1", ExtractError::NoSupply(1)),
    (
        b"supply VDD 1\nsupply VSS 0\npad VDD metal4 9 0\ncell C0 1",
        ExtractError::PadOff(3),
    ),
    (
        b"supply VDD 1\nsupply VSS 0\ncell C0 1000",
        ExtractError::LoadOff(1),
    ),
    (
        b"supply VDD 1\nsupply VSS 0\ninstance u1 1000",
        ExtractError::Net(NetError::Range {
            quantity: Quantity::Loads,
            at: 0,
            number: 2_000_000_000_000_000_000,
        }),
    ),
];

fn is_refused(got: Result<Extracted, ExtractError>, want: ExtractError) -> bool {
    match got {
        Ok(_) => false,
        Err(error) => error == want,
    }
}

#[test]
fn refusals_in_order(rt: HostRuntime) -> Result<(), Fail> {
    for (text, want) in REFUSALS {
        assert!(rt; is_refused(small(&rt, rt.alloc(), text)?, want));
    }
    Ok(())
}
