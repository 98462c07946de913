ghost use Rattle.std.specs.Prelude.{◌≢◌, ◌<◌, ◌^◌, ℕ, List, All, IfOk, IsTrue, length, slice_index_or};
ghost use Rattle.name_table.specs.Numbering.{AreDistinct};
ghost use Rattle.via_arrays.specs.Lengths.{IsUnits};
ghost use Rattle.grid_pieces.specs.Limits.{PieceKeeps};
ghost use Rattle.def_design.specs.Limits.{DesignKeeps};

use crate::same::same;
use bias_file::read_bias;
use def_design::{Design, read_design};
use entry_list::Entries;
use geom_rect::{Axis, Rect, Shape};
use grid_network::{ExtractError, PadOn, Tap, is_drawing};
use grid_pieces::{DomainAt, Grid, Piece};
use grid_taps::*;
use lef_cells::read_cells;
use lef_tech::{Tech, read_tech};
use outside::Name;
use std::alloc::{AllocError, Global};
use std::process::Abort;
use std::test::Fail;

// The small design: four layers of metal, a cell of 1.4 by 1.4 µm, and a row.
const LEF: &[u8] = b"
LAYER metal1 TYPE ROUTING ; DIRECTION HORIZONTAL ; RESISTANCE RPERSQ 0.38 ; END metal1
LAYER metal2 TYPE ROUTING ; DIRECTION VERTICAL ; END metal2
LAYER metal3 TYPE ROUTING ; DIRECTION HORIZONTAL ; RESISTANCE RPERSQ 0.25 ; END metal3
LAYER metal4 TYPE ROUTING ; DIRECTION VERTICAL ; RESISTANCE RPERSQ 0.21 ; END metal4
END LIBRARY
";

// C1 draws nothing of its own; M is 2 by 1.4 µm; ODD has a width of 1.4005 µm, which is 2801 units.
const CELLS: &[u8] = b"
MACRO C0 CLASS CORE ; SIZE 1.4 BY 1.4 ; END C0
MACRO C1 CLASS CORE ; SIZE 1.4 BY 1.4 ; END C1
MACRO M CLASS CORE ; SIZE 2 BY 1.4 ; END M
MACRO ODD CLASS CORE ; SIZE 1.4005 BY 1.4 ; END ODD
END LIBRARY
";

fn piece(net: u32, layer: u32, axis: Axis, centre: i64, from: i64, to: i64) -> Piece {
    let (width, shape) = match axis {
        Axis::X => (340, Shape::FollowPin),
        Axis::Y => (960, Shape::Stripe),
    };
    Piece {
        net,
        layer,
        axis,
        centre,
        width,
        from,
        to,
        shape,
    }
}

// The grid of these nets, domains and pieces, with 2000 units in a micrometre.
fn grid_of(
    alloc: Global,
    names: &[&[u8]],
    domains: &[DomainAt],
    pieces: &[Piece],
) -> Result<Grid, AllocError> {
    let mut nets = Vec::new(alloc);
    for name in names {
        nets.push(Name::new(alloc, name)?)?;
    }
    Ok(Grid {
        units: 2000,
        nets: Entries::new(nets),
        power: Entries::new(Vec::new(alloc)),
        domains: Entries::new(domains.to_vec(alloc)?),
        pieces: Entries::new(pieces.to_vec(alloc)?),
        stacks: Entries::new(Vec::new(alloc)),
    })
}

// The grid of the small design: a rail and a strap of each net.
fn small_grid(alloc: Global) -> Result<Grid, AllocError> {
    grid_of(
        alloc,
        &[b"VDD", b"VSS"],
        &[DomainAt {
            region: None,
            ground: 1,
            power: 0,
        }],
        &[
            piece(0, 0, Axis::X, 2800, 0, 8000),
            piece(0, 3, Axis::Y, 6000, -170, 2970),
            piece(1, 0, Axis::X, 0, 0, 8000),
            piece(1, 3, Axis::Y, 2000, -170, 2970),
        ],
    )
}

// ## what is asked of a grid

fn is_new(names: &[Name], k: usize) -> bool
    requires { k < length names.now }
    ensures { IsTrue result → (j : ℕ) (d : List ℕ) → j < k → slice_index_or names.now j d ≢ slice_index_or names.now k d }
{
    for j in 0..k {
        if names[j].bytes() == names[k].bytes() {
            return false;
        }
    }
    true
}

fn are_distinct(names: &[Name]) -> bool
    ensures { IsTrue result → AreDistinct names.now }
{
    for k in 0..names.len() {
        if !is_new(names, k) {
            return false;
        }
    }
    true
}

// Whether the grid is one that `pads` and `taps` may be asked of.
fn is_asked(grid: &Grid, tech: &Tech) -> bool
    ensures units { IsTrue result → IsUnits grid.now.units }
    ensures nets { IsTrue result → AreDistinct grid.now.nets }
    ensures pieces { IsTrue result → All PieceKeeps grid.now.pieces }
    ensures few { IsTrue result → length grid.now.pieces < 2 ^ 32 }
{
    grid.units >= 1
        && grid.units <= 20_000
        && are_distinct(grid.nets.as_slice())
        && is_drawing(grid, tech, &[], &[])
}

// ## pads

const VOLTS: i128 = 1_100_000_000_000_000_000_000_000;

// The pads of the small design, the edges of a strap and of a rail, and two pads at one place.
const PADS: [(&[u8], &[PadOn]); 3] = [
    (
        b"supply VDD 1.1\nsupply VSS 0\npad VDD metal4 3 0\npad VSS metal4 1 1.4",
        &[
            PadOn {
                piece: 1,
                along: 0,
                volts: VOLTS,
            },
            PadOn {
                piece: 3,
                along: 2800,
                volts: 0,
            },
        ],
    ),
    (
        b"supply VDD 1.1\nsupply VSS 0\npad VDD metal4 3.24 0",
        &[PadOn {
            piece: 1,
            along: 0,
            volts: VOLTS,
        }],
    ),
    (
        b"supply VDD 1.1\nsupply VSS 0\npad VSS metal1 4 -0.085\npad VSS metal1 4 -0.085",
        &[
            PadOn {
                piece: 2,
                along: 8000,
                volts: 0,
            },
            PadOn {
                piece: 2,
                along: 8000,
                volts: 0,
            },
        ],
    ),
];

// A pad beyond an edge, between two units, and on a layer where its net has no piece. Then two causes at once: an
// unknown name goes before a supply that lacks, and that before a pad that is off. Of one kind the earliest line or the
// first net is named.
const REFUSED_PADS: [(&[u8], ExtractError); 12] = [
    (
        b"supply VDD 1\nsupply VSS 0\npad VDD metal4 3.2405 0",
        ExtractError::PadOff(3),
    ),
    (
        b"supply VDD 1\nsupply VSS 0\npad VDD metal4 3.0002 0",
        ExtractError::PadOff(3),
    ),
    (
        b"supply VDD 1\nsupply VSS 0\npad VSS metal1 4 -0.0855",
        ExtractError::PadOff(3),
    ),
    (
        b"supply VDD 1\nsupply VSS 0\npad VSS metal2 4 0",
        ExtractError::PadOff(3),
    ),
    (b"droplimit X 1\nsupply Y 1", ExtractError::UnknownName(1)),
    (b"supply Y 1\ndroplimit X 1", ExtractError::UnknownName(1)),
    (b"pad VDD metal9 3 0", ExtractError::UnknownName(1)),
    (
        b"pad VDD metal4 9 0\npad V metal4 3 0",
        ExtractError::UnknownName(2),
    ),
    (
        b"supply VDD 1\npad VDD metal4 9 0",
        ExtractError::NoSupply(1),
    ),
    (b"pad VDD metal4 9 0", ExtractError::NoSupply(0)),
    (
        b"supply VSS 0\nsupply VDD 1\npad VSS metal4 9 0\npad VDD metal4 9 0",
        ExtractError::PadOff(3),
    ),
    (
        b"supply VSS 0\nsupply VDD 1\npad VSS metal4 1 0\npad VDD metal4 9 0",
        ExtractError::PadOff(4),
    ),
];

// The pads of a bias file on the grid.
fn pads_on(
    rt: &impl Abort,
    alloc: Global,
    grid: &Grid,
    bias: &[u8],
) -> Result<Result<Vec<PadOn>, ExtractError>, Fail> {
    let tech = read_tech(alloc, LEF)?;
    let bias = read_bias(alloc, bias)?;
    assert!(rt; is_asked(grid, &tech));
    Ok(pads(alloc, grid, &tech, &bias))
}

fn are_pads(got: Result<Vec<PadOn>, ExtractError>, want: &[PadOn]) -> bool {
    match got {
        Ok(pads) => pads.as_slice() == want,
        Err(_) => false,
    }
}

fn are_refused(got: Result<Vec<PadOn>, ExtractError>, want: ExtractError) -> bool {
    match got {
        Ok(_) => false,
        Err(error) => error == want,
    }
}

#[test]
fn pads_on_their_pieces(rt: HostRuntime) -> Result<(), Fail> {
    let grid = small_grid(rt.alloc())?;
    for (text, want) in PADS {
        assert!(rt; are_pads(pads_on(&rt, rt.alloc(), &grid, text)?, want));
    }
    Ok(())
}

#[test]
fn refused_pads(rt: HostRuntime) -> Result<(), Fail> {
    let grid = small_grid(rt.alloc())?;
    for (text, want) in REFUSED_PADS {
        assert!(rt; are_refused(pads_on(&rt, rt.alloc(), &grid, text)?, want));
    }
    Ok(())
}

// A pad on the corner of two pieces of VDD stands on both.
const CORNER: [PadOn; 2] = [
    PadOn {
        piece: 0,
        along: 1000,
        volts: VOLTS,
    },
    PadOn {
        piece: 1,
        along: 1000,
        volts: VOLTS,
    },
];

#[test]
fn corners_and_nets_without_pieces(rt: HostRuntime) -> Result<(), Fail> {
    let grid = grid_of(
        rt.alloc(),
        &[b"AON", b"VDD"],
        &[],
        &[
            piece(1, 3, Axis::Y, 480, 0, 1000),
            piece(1, 3, Axis::Y, 1440, 1000, 2000),
        ],
    )?;
    let corner = pads_on(
        &rt,
        rt.alloc(),
        &grid,
        b"supply VDD 1.1\npad VDD metal4 0.48 0.5",
    )?;
    assert!(rt; are_pads(corner, &CORNER));
    let none = pads_on(&rt, rt.alloc(), &grid, b"supply VDD 1.1")?;
    assert!(rt; are_pads(none, &[]));
    let off = pads_on(
        &rt,
        rt.alloc(),
        &grid,
        b"supply VDD 1.1\npad AON metal4 0.48 0.5",
    )?;
    assert!(rt; are_refused(off, ExtractError::PadOff(2)));
    Ok(())
}

// ## taps

const U1: &[u8] = b"- u1 C0 + PLACED ( 2400 0 ) N ;";

// A tap pair: power rail, ground rail, place, and range.
type Want = (u32, u32, i64, i64, i64);

const AMPS: i64 = 333_300_000_000;

// Components, a bias file, and the taps. The range of a component goes before that of its cell. M is 4000 by 2800
// units, and 2800 by 4000 where it is turned. Half of 2801 is rounded down.
const TAPS: [(&[u8], &[u8], Want); 13] = [
    (U1, b"instance u1 333.3u", (0, 2, 3800, AMPS, AMPS)),
    (U1, b"instance u1 0 333.3u", (0, 2, 3800, 0, AMPS)),
    (U1, b"cell C0 333.3u", (0, 2, 3800, AMPS, AMPS)),
    (
        U1,
        b"cell C0 1m\ninstance u1 333.3u",
        (0, 2, 3800, AMPS, AMPS),
    ),
    (
        b"- u M + PLACED ( 1000 0 ) N ;",
        b"cell M 1f",
        (0, 2, 3000, 1, 1),
    ),
    (
        b"- u M + PLACED ( 1000 0 ) S ;",
        b"cell M 1f",
        (0, 2, 3000, 1, 1),
    ),
    (
        b"- u M + PLACED ( 1000 0 ) W ;",
        b"cell M 1f",
        (0, 2, 2400, 1, 1),
    ),
    (
        b"- u M + PLACED ( 1000 0 ) E ;",
        b"cell M 1f",
        (0, 2, 2400, 1, 1),
    ),
    (
        b"- u M + PLACED ( 1000 0 ) FN ;",
        b"cell M 1f",
        (0, 2, 3000, 1, 1),
    ),
    (
        b"- u M + PLACED ( 1000 0 ) FS ;",
        b"cell M 1f",
        (0, 2, 3000, 1, 1),
    ),
    (
        b"- u M + PLACED ( 1000 0 ) FW ;",
        b"cell M 1f",
        (0, 2, 2400, 1, 1),
    ),
    (
        b"- u M + PLACED ( 1000 0 ) FE ;",
        b"cell M 1f",
        (0, 2, 2400, 1, 1),
    ),
    (
        b"- u ODD + PLACED ( 1000 0 ) N ;",
        b"cell ODD 1f",
        (0, 2, 2400, 1, 1),
    ),
];

// Components that draw nothing, whatever lacks of them.
const NO_TAPS: [(&[u8], &[u8]); 3] = [
    (U1, b"cell C0 1m\ninstance u1 0"),
    (b"- u1 C1 + PLACED ( 2400 0 ) N ;", b"cell C0 1m"),
    (b"- u1 C9 ;", b"instance u1 0 0"),
];

// An unknown name goes before a load that is off. The first of two such loads is named.
const REFUSED_TAPS: [(&[u8], &[u8], ExtractError); 9] = [
    (U1, b"instance u2 1", ExtractError::UnknownName(1)),
    (
        U1,
        b"instance u1 1\ncell C9 1",
        ExtractError::UnknownName(2),
    ),
    (
        U1,
        b"cell C9 1\ninstance u2 1",
        ExtractError::UnknownName(1),
    ),
    (
        b"- u1 C0 ;",
        b"instance u1 1\ncell C9 1",
        ExtractError::UnknownName(2),
    ),
    (b"- u1 C0 ;", b"instance u1 1", ExtractError::LoadOff(0)),
    (
        b"- u0 C0 ; - u1 C9 + PLACED ( 0 0 ) N ;",
        b"instance u1 1",
        ExtractError::LoadOff(1),
    ),
    (
        b"- u1 C0 + PLACED ( 2400 2801 ) N ; - u2 C0 ;",
        b"cell C0 1",
        ExtractError::LoadOff(0),
    ),
    (
        b"- u1 C0 + PLACED ( 6601 0 ) N ;",
        b"cell C0 1",
        ExtractError::LoadOff(0),
    ),
    (
        b"- u1 C0 + PLACED ( 2400 1 ) N ;",
        b"cell C0 1",
        ExtractError::LoadOff(0),
    ),
];

// A design of these components.
fn design_of(alloc: Global, components: &[u8]) -> Result<Design, Fail>
    ensures { IfOk result DesignKeeps }
{
    let mut text =
        b"DESIGN d ; UNITS DISTANCE MICRONS 2000 ; DIEAREA ( 0 0 ) ( 9000 9000 ) ;\nCOMPONENTS 1 ;\n".to_vec(
            alloc,
        )?;
    text.extend_from_slice(components)?;
    text.extend_from_slice(b"\nEND COMPONENTS\nEND DESIGN\n")?;
    Ok(read_design(alloc, &text)?)
}

// The taps of these components on the grid, with this bias file.
fn taps_on(
    rt: &impl Abort,
    alloc: Global,
    grid: &Grid,
    components: &[u8],
    bias: &[u8],
) -> Result<Result<Vec<Tap>, ExtractError>, Fail> {
    let tech = read_tech(alloc, LEF)?;
    let cells = read_cells(alloc, CELLS)?;
    let design = design_of(alloc, components)?;
    let bias = read_bias(alloc, bias)?;
    assert!(rt; is_asked(grid, &tech));
    Ok(taps(alloc, grid, &cells, &design, &bias))
}

fn is_pair(taps: &[Tap], want: Want) -> bool {
    let (power, ground, along, low, high) = want;
    let [first, second] = taps else {
        return false;
    };
    let draws = first.piece == power
        && first.along == along
        && first.low == low
        && first.high == high;
    let gives = second.piece == ground && second.along == along;
    draws && gives && second.low == high.wrapping_neg() && second.high == low.wrapping_neg()
}

fn are_taps(got: Result<Vec<Tap>, ExtractError>, want: Want) -> bool {
    match got {
        Ok(taps) => is_pair(&taps, want),
        Err(_) => false,
    }
}

fn is_off(got: Result<Vec<Tap>, ExtractError>, want: ExtractError) -> bool {
    match got {
        Ok(_) => false,
        Err(error) => error == want,
    }
}

fn are_none(got: Result<Vec<Tap>, ExtractError>) -> bool {
    match got {
        Ok(taps) => taps.is_empty(),
        Err(_) => false,
    }
}

#[test]
fn ranges_and_orientations(rt: HostRuntime) -> Result<(), Fail> {
    let grid = small_grid(rt.alloc())?;
    for (components, bias, want) in TAPS {
        assert!(rt; are_taps(taps_on(&rt, rt.alloc(), &grid, components, bias)?, want));
    }
    for (components, bias) in NO_TAPS {
        assert!(rt; are_none(taps_on(&rt, rt.alloc(), &grid, components, bias)?));
    }
    Ok(())
}

#[test]
fn refused_taps(rt: HostRuntime) -> Result<(), Fail> {
    let grid = small_grid(rt.alloc())?;
    for (components, bias, want) in REFUSED_TAPS {
        assert!(rt; is_off(taps_on(&rt, rt.alloc(), &grid, components, bias)?, want));
    }
    Ok(())
}

// Rails of two domains: VDD and VSS below, VDDA and VSS in the region from 5600 to 8400. Two rails of VDD lie on one
// line, and two of VSS on two layers of one.
fn two_domains(alloc: Global) -> Result<Grid, AllocError> {
    grid_of(
        alloc,
        &[b"VDD", b"VDDA", b"VSS"],
        &[
            DomainAt {
                region: None,
                ground: 2,
                power: 0,
            },
            DomainAt {
                region: Some(Rect {
                    x1: 0,
                    y1: 5600,
                    x2: 8000,
                    y2: 8400,
                }),
                ground: 2,
                power: 1,
            },
        ],
        &[
            piece(0, 0, Axis::X, 2800, 0, 3000),
            piece(0, 0, Axis::X, 2800, 4000, 8000),
            piece(1, 0, Axis::X, 8400, 0, 8000),
            piece(2, 0, Axis::X, 5600, 0, 8000),
            piece(2, 2, Axis::X, 0, 0, 8000),
            piece(2, 0, Axis::X, 0, 0, 8000),
        ],
    )
}

const IN_DOMAINS: [(&[u8], Want); 3] = [
    (b"- u C0 + PLACED ( 2600 0 ) N ;", (1, 5, 4000, 1, 1)),
    (b"- u C0 + PLACED ( 1600 0 ) N ;", (0, 5, 3000, 1, 1)),
    (b"- u C0 + PLACED ( 0 5600 ) N ;", (2, 3, 1400, 1, 1)),
];

#[test]
fn rails_of_two_domains(rt: HostRuntime) -> Result<(), Fail> {
    let grid = two_domains(rt.alloc())?;
    for (components, want) in IN_DOMAINS {
        assert!(rt;
            are_taps(
                taps_on(&rt, rt.alloc(), &grid, components, b"cell C0 1f")?,
                want
            )
        );
    }
    let between = taps_on(
        &rt,
        rt.alloc(),
        &grid,
        b"- u C0 + PLACED ( 2599 0 ) N ;",
        b"cell C0 1f",
    )?;
    assert!(rt; is_off(between, ExtractError::LoadOff(0)));
    let above = taps_on(
        &rt,
        rt.alloc(),
        &grid,
        b"- u C0 + PLACED ( 0 8400 ) N ;",
        b"cell C0 1f",
    )?;
    assert!(rt; is_off(above, ExtractError::LoadOff(0)));
    Ok(())
}

#[test]
fn no_domain_owns_it(rt: HostRuntime) -> Result<(), Fail> {
    let grid = grid_of(
        rt.alloc(),
        &[b"VDD", b"VSS"],
        &[],
        &[
            piece(0, 0, Axis::X, 2800, 0, 8000),
            piece(1, 0, Axis::X, 0, 0, 8000),
        ],
    )?;
    let unowned = taps_on(&rt, rt.alloc(), &grid, U1, b"cell C0 1f")?;
    assert!(rt; is_off(unowned, ExtractError::LoadOff(0)));
    Ok(())
}

// Two hundred rows of two hundred components each, and the rails at their edges, ground and power in turn.
fn many_components(alloc: Global) -> Result<Design, Fail>
    ensures { IfOk result DesignKeeps }
{
    let mut text = String::new(alloc);
    for row in 0..200_u32 {
        for place in 0..200_u32 {
            let x = place.wrapping_mul(2800);
            let y = row.wrapping_mul(2800);
            write!(text, "- u{row}_{place} C0 + PLACED ( {x} {y} ) N ;\n")?;
        }
    }
    design_of(alloc, text.as_bytes())
}

fn many_rails(alloc: Global) -> Result<Grid, AllocError> {
    let mut pieces = Vec::new(alloc);
    for (net, lowest) in [(0, 2800_i64), (1, 0)] {
        for row in 0..101_i64 {
            let centre = row.wrapping_mul(5600).wrapping_add(lowest);
            pieces.push(Piece {
                to: 560_000,
                ..piece(net, 0, Axis::X, centre, 0, 8000)
            })?;
        }
    }
    grid_of(
        alloc,
        &[b"VDD", b"VSS"],
        &[DomainAt {
            region: None,
            ground: 1,
            power: 0,
        }],
        &pieces,
    )
}

#[test]
fn forty_thousand_components(rt: HostRuntime) -> Result<(), Fail> {
    let grid = many_rails(rt.alloc())?;
    let tech = read_tech(rt.alloc(), LEF)?;
    let cells = read_cells(rt.alloc(), CELLS)?;
    let design = many_components(rt.alloc())?;
    let bias = read_bias(rt.alloc(), b"cell C0 1f\ninstance u199_199 0 2f")?;
    assert!(rt; is_asked(&grid, &tech));
    match taps(rt.alloc(), &grid, &cells, &design, &bias) {
        Ok(taps) => {
            assert!(rt; taps.len() == 80_000);
            let last = Tap {
                piece: 201,
                along: 558_600,
                low: -2,
                high: 0,
            };
            same(&rt, taps.last(), Some(&last));
        }
        Err(_) => assert!(rt; false, "refused"),
    }
    Ok(())
}
