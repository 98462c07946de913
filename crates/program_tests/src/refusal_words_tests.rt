//! Refusals as they are told. The lines were worked out apart from this code.
use crate::same::same;
use def_design::{Design, read_design};
use def_wiring::read_wires;
use entry_list::Entries;
use geom_rect::Rect;
use grid_network::ExtractError;
use grid_pieces::{Counted, DrawError, Grid, Touching};
use lef_tech::{Tech, read_tech};
use outside::Name;
use pdn_script::{Script, read_script};
use refusal_words::*;
use std::process::Abort;
use via_arrays::StackError;
use wired_grid::{WireCount, WiredError};

/// Two routing layers and a rule that joins them, behind a rule of other cuts.
const TECHNOLOGY: &[u8] = b"VERSION 5.8 ;
LAYER metal1
  TYPE ROUTING ;
  DIRECTION HORIZONTAL ;
END metal1
LAYER via1
  TYPE CUT ;
END via1
LAYER metal2
  TYPE ROUTING ;
  DIRECTION VERTICAL ;
END metal2
VIARULE Via1Bar GENERATE
  LAYER metal1 ;
    ENCLOSURE 0 0 ;
  LAYER metal2 ;
    ENCLOSURE 0 0 ;
  LAYER via1 ;
    RECT -0.07 -0.035 0.07 0.035 ;
    SPACING 0.30 BY 0.15 ;
END Via1Bar
VIARULE Via1Array GENERATE
  LAYER metal1 ;
    ENCLOSURE 0 0.035 ;
  LAYER metal2 ;
    ENCLOSURE 0 0.035 ;
  LAYER via1 ;
    RECT -0.035 -0.035 0.035 0.035 ;
    SPACING 0.15 BY 0.15 ;
END Via1Array
END LIBRARY
";

const DESIGN: &[u8] = b"VERSION 5.8 ;
DESIGN small ;
UNITS DISTANCE MICRONS 2000 ;
DIEAREA ( 0 0 ) ( 8000 5600 ) ;
ROW r0 unit 0 0 N DO 20 BY 1 STEP 400 0 ;
ROW r1 unit 0 2800 FS DO 20 BY 1 STEP 400 0 ;
COMPONENTS 2 ;
- u1 C0 + PLACED ( 2400 0 ) N ;
- u2 C0 + PLACED ( 2400 2800 ) FS ;
END COMPONENTS
END DESIGN
";

const SCRIPT: &[u8] = b"set_voltage_domain -name CORE -power VDD -ground VSS
set_voltage_domain -name AON -power VDDA -ground VSS -region aon
set_voltage_domain -name D -power VD -ground VSS -region d
pdngen
";

/// How many refusals of a drawing are told.
const DRAWING: usize = 19;

// A refusal of a drawing, and what is told of it.
fn drawing(at: usize) -> (DrawError, &'static [u8]) {
    match at {
        0 => (DrawError::RingLayers(1), b"RingLayers 1"),
        1 => (DrawError::RailLayer(1), b"RailLayer metal2"),
        2 => (DrawError::ParallelConnect(0), b"ParallelConnect 0"),
        3 => (DrawError::OffGrid(480_250), b"OffGrid 480250"),
        4 => (DrawError::OddWidth(480_500), b"OddWidth 480500"),
        5 => (DrawError::RegionShape(1), b"RegionShape AON"),
        6 => (DrawError::RegionsMeet(1, 2), b"RegionsMeet AON D"),
        7 => (DrawError::RowAcross(1), b"RowAcross r1"),
        8 => (DrawError::EmptyDomain(0), b"EmptyDomain CORE"),
        9 => (DrawError::MacroGrid(1), b"MacroGrid u2"),
        10 => (DrawError::TooMany(Counted::Lines), b"TooMany Lines"),
        11 => (DrawError::TooMany(Counted::Stacks), b"TooMany Stacks"),
        12 => (DrawError::NoSheet(0), b"NoSheet metal1"),
        13 => no_stack(StackError::NoRule(1), b"Stack NoRule metal2 6000 2800"),
        14 => no_stack(StackError::OffGrid(1), b"Stack OffGrid Via1Array 6000 2800"),
        15 => no_stack(
            StackError::NoCutFits(0),
            b"Stack NoCutFits metal1 6000 2800",
        ),
        16 => no_stack(
            StackError::NoResistance(0),
            b"Stack NoResistance metal1 6000 2800",
        ),
        17 => touch(),
        _ => (DrawError::NoRows, b"NoRows"),
    }
}

fn no_stack(error: StackError, words: &'static [u8]) -> (DrawError, &'static [u8]) {
    (DrawError::Stack(error, 6000, 2800), words)
}

fn touch() -> (DrawError, &'static [u8]) {
    let touching = Touching {
        layer: 1,
        first: Rect {
            x1: 1520,
            y1: -170,
            x2: 2480,
            y2: 170,
        },
        second: Rect {
            x1: 2300,
            y1: -170,
            x2: 2700,
            y2: 170,
        },
        same: true,
    };
    (
        DrawError::Touch(touching),
        b"Touch metal2 1520 -170 2480 170 2300 -170 2700 170 true",
    )
}

/// Refusals of an extraction, and what is told of each.
static EXTRACTION: [(ExtractError, &[u8]); 4] = [
    (ExtractError::UnknownName(4), b"UnknownName 4"),
    (ExtractError::NoSupply(1), b"NoSupply VSS"),
    (ExtractError::PadOff(10), b"PadOff 10"),
    (ExtractError::LoadOff(0), b"LoadOff u1"),
];

/// Wiring with two vias and two nets.
const WIRING: &[u8] = b"VERSION 5.8 ;
VIAS 2 ;
- v1 + VIARULE Via1Array + CUTSIZE 140 140 + LAYERS metal1 via1 metal2 + CUTSPACING 160 160 + ENCLOSURE 0 70 0 70 ;
- v2 + VIARULE Via1Array + CUTSIZE 140 140 + LAYERS metal1 via1 metal2 + CUTSPACING 160 160 + ENCLOSURE 0 70 0 70 ;
END VIAS
SPECIALNETS 2 ;
- VDD + USE POWER ;
- VSS + USE GROUND ;
END SPECIALNETS
END DESIGN
";

/// Refusals of wiring, and what is told of each.
const WIRED: [(WiredError, &[u8]); 9] = [
    (WiredError::NetCount(2, 0), b"NetCount 2 0"),
    (WiredError::ViaLayers(1), b"ViaLayers v2"),
    (WiredError::ViaSize(0), b"ViaSize v1"),
    (WiredError::OddWidth(1, 961), b"OddWidth VSS 961"),
    (WiredError::NoSheet(1), b"NoSheet metal2"),
    (WiredError::NoResistance(0), b"NoResistance metal1"),
    (
        WiredError::TooMany(WireCount::Segments),
        b"TooMany Segments",
    ),
    (WiredError::TooMany(WireCount::Vias), b"TooMany Vias"),
    (WiredError::ViaOff(1, 6000, -2810), b"ViaOff v2 6000 -2810"),
];

// A grid of two nets.
fn grid(rt: &(impl Abort + AllocGlobal)) -> Grid {
    let alloc = rt.alloc();
    let first = Name::new(alloc, b"VDD").expect(rt, "memory");
    let second = Name::new(alloc, b"VSS").expect(rt, "memory");
    Grid {
        units: 2000,
        nets: Entries::new(vec![in alloc; first, second].expect(rt, "memory")),
        power: Entries::new(vec![in alloc; true, false].expect(rt, "memory")),
        domains: Entries::new(Vec::new(alloc)),
        pieces: Entries::new(Vec::new(alloc)),
        stacks: Entries::new(Vec::new(alloc)),
    }
}

/// Compares what is told of a refusal of a drawing.
fn compare_drawing(
    rt: &(impl Abort + AllocGlobal),
    tech: &Tech,
    design: &Design,
    script: &Script,
    refusal: (&DrawError, &[u8]),
) {
    let told = draw_words(rt.alloc(), tech, design, script, refusal.0).expect(rt, "memory");
    same(rt, told.as_slice(), refusal.1);
}

#[test]
fn refusals_of_a_drawing(rt: HostRuntime) {
    let tech = read_tech(rt.alloc(), TECHNOLOGY).expect(&rt, "a technology");
    let design = read_design(rt.alloc(), DESIGN).expect(&rt, "a design");
    let script = read_script(rt.alloc(), SCRIPT).expect(&rt, "a script");
    for at in 0..DRAWING {
        let (error, words) = drawing(at);
        compare_drawing(&rt, &tech, &design, &script, (&error, words));
    }
    // a name of any bytes is told as it stands
    let name = Name::new(rt.alloc(), b"m\xff 4").expect(&rt, "memory");
    let unknown = DrawError::UnknownName(name);
    compare_drawing(
        &rt,
        &tech,
        &design,
        &script,
        (&unknown, b"UnknownName m\xff 4"),
    );
}

#[test]
fn refusals_of_an_extraction(rt: HostRuntime) {
    let design = read_design(rt.alloc(), DESIGN).expect(&rt, "a design");
    let grid = grid(&rt);
    for (error, words) in &EXTRACTION {
        let told = extract_words(rt.alloc(), &grid, &design, error).expect(&rt, "memory");
        same(&rt, told.as_slice(), *words);
    }
}

#[test]
fn refusals_of_wiring(rt: HostRuntime) {
    let tech = read_tech(rt.alloc(), TECHNOLOGY).expect(&rt, "a technology");
    let wires = read_wires(rt.alloc(), WIRING).expect(&rt, "wiring");
    for (error, words) in &WIRED {
        let told = wired_words(rt.alloc(), &tech, &wires, error).expect(&rt, "memory");
        same(&rt, told.as_slice(), *words);
    }
}
