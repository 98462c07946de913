//! A text whose record was worked out from the rules of the format. Where a text is refused is told by cases.
use crate::same::same;
use Shape::{FollowPin, Ring, Stripe};
use def_wiring::*;
use geom_rect::Shape;
use std::process::Abort;

/// The layer, the width, the shape, and the two points with their lengthenings.
type SaidSegment = (&'static [u8], i64, Shape, (i64, i64, i64), (i64, i64, i64));

/// The via, the layer and the place.
type SaidPlace = (&'static [u8], &'static [u8], i64, i64);

/// A name, whether the use is POWER, and the wires.
struct SaidNet {
    name: &'static [u8],
    power: bool,
    segments: &'static [SaidSegment],
    vias: &'static [SaidPlace],
}

fn compare_segments(rt: &impl Abort, segments: &[Segment], said: &[SaidSegment]) {
    same(rt, segments.len(), said.len());
    for (segment, want) in segments.iter().zip(said) {
        same(
            rt,
            (segment.layer.bytes(), segment.width, segment.shape),
            (want.0, want.1, want.2),
        );
        same(rt, (segment.x1, segment.y1, segment.e1), want.3);
        same(rt, (segment.x2, segment.y2, segment.e2), want.4);
    }
}

fn compare_places(rt: &impl Abort, places: &[ViaPlace], said: &[SaidPlace]) {
    same(rt, places.len(), said.len());
    for (place, want) in places.iter().zip(said) {
        same(
            rt,
            (place.via.bytes(), place.layer.bytes(), place.x, place.y),
            *want,
        );
    }
}

fn compare_nets(rt: &impl Abort, nets: &[WiredNet], said: &[SaidNet]) {
    same(rt, nets.len(), said.len());
    for (net, want) in nets.iter().zip(said) {
        same(rt, (net.name.bytes(), net.power), (want.name, want.power));
        compare_segments(rt, net.segments.as_slice(), want.segments);
        compare_places(rt, net.vias.as_slice(), want.vias);
    }
}

/// The names and layers of a via.
fn names(via: &ViaDef) -> [&[u8]; 5] {
    [
        via.name.bytes(),
        via.rule.bytes(),
        via.lower.bytes(),
        via.cut.bytes(),
        via.upper.bytes(),
    ]
}

/// Its numbers, in the order of the text.
fn numbers(via: &ViaDef) -> [i64; 10] {
    [
        via.cut_x,
        via.cut_y,
        via.gap_x,
        via.gap_y,
        via.lower_x,
        via.lower_y,
        via.upper_x,
        via.upper_y,
        via.rows,
        via.columns,
    ]
}

/// Wiring as OpenROAD writes it, with rings and followpins, other sections, and nets and vias that do not count.
const WIRED: &[u8] = b"VERSION 5.8 ;
DESIGN small ;
UNITS DISTANCE MICRONS 2000 ;
COMPONENTS 1 ; - u1 SPECIALNETS + PLACED ( 0 0 ) N ; END COMPONENTS
BEGINEXT VIAS ENDEXT
VIAS 4 ;
- via1_2 + VIARULE Via1 + CUTSIZE 140 150 + LAYERS metal1 via1 metal2 + CUTSPACING 160 0 + ENCLOSURE 70 0 1 71 + ROWCOL 1 3 ;
- fixed + RECT metal1 ( 0 0 ) ( 1 1 ) + RECT via1 ( 0 0 ) ( 1 1 ) ;
- END + VIARULE CUTSIZE + CUTSIZE 1 \"2\" + LAYERS + - ;
- N + VIARULE R2 + CUTSIZE 1 1 + LAYERS a b c + CUTSPACING 0 0 + ENCLOSURE 0 0 0 0 ;
END VIAS
SPECIALNETS 4 ;
- VDD ( * VDD ) + USE POWER + VOLTAGE 1100
  + ROUTED metal1 340 + SHAPE FOLLOWPIN ( 0 2800 ) ( 8000 * )
    NEW metal4 960 + SHAPE RING ( 6000 -170 5 ) ( * 100 ) ( 7000 * 0 )
    NEW metal1 0 + SHAPE STRIPE ( 6000 2800 ) via1_2
    NEW metal2 0 ( 1 2 ) via1_2 N
  + FIXED metal2 0 + SHAPE FOLLOWPIN ( 7 0 ) ( 7 9 ) ( * * ) + SOURCE NETLIST ;
- clk + USE CLOCK + ROUTED metal1 x ( 0 0 ) ( 1 1 ) RECT ( 0 0 ) + VIA v ;
- VSS + USE SIGNAL
  + COVER metal1 2 + SHAPE IOWIRE ( 0 0 3 ) ( 0 -9 ) NEW metal1 0 ( 3 3 ) N
  + USE GROUND + USE POWER ;
- other + ROUTED ;
END SPECIALNETS
END DESIGN \" VIAS
";

static WIRED_SAYS: [SaidNet; 2] = [
    SaidNet {
        name: b"VDD",
        power: true,
        segments: &[
            (b"metal1", 340, FollowPin, (0, 2800, 0), (8000, 2800, 0)),
            (b"metal4", 960, Ring, (6000, -170, 5), (6000, 100, 0)),
            (b"metal4", 960, Ring, (6000, 100, 0), (7000, 100, 0)),
            (b"metal2", 0, Stripe, (7, 0, 0), (7, 9, 0)),
            (b"metal2", 0, FollowPin, (7, 9, 0), (7, 9, 0)),
        ],
        vias: &[
            (b"via1_2", b"metal1", 6000, 2800),
            (b"via1_2", b"metal2", 1, 2),
        ],
    },
    SaidNet {
        name: b"VSS",
        power: false,
        segments: &[(b"metal1", 2, Stripe, (0, 0, 3), (0, -9, 0))],
        vias: &[(b"N", b"metal1", 3, 3)],
    },
];

static VIA_NAMES: [[&[u8]; 5]; 2] = [
    [b"via1_2", b"Via1", b"metal1", b"via1", b"metal2"],
    [b"N", b"R2", b"a", b"b", b"c"],
];

static VIA_NUMBERS: [[i64; 10]; 2] = [
    [140, 150, 160, 0, 70, 0, 1, 71, 1, 3],
    [1, 1, 0, 0, 0, 0, 0, 0, 1, 1],
];

fn compare_vias(rt: &impl Abort, vias: &[ViaDef]) {
    same(rt, vias.len(), 2);
    for (via, want) in vias.iter().zip(&VIA_NAMES) {
        assert!(rt; names(via) == *want);
    }
    for (via, want) in vias.iter().zip(&VIA_NUMBERS) {
        same(rt, numbers(via), *want);
    }
}

#[test]
fn vias_and_nets_of_a_design(rt: HostRuntime) {
    let wires = read_wires(rt.alloc(), WIRED).expect(&rt, "wiring");
    compare_vias(&rt, wires.vias.as_slice());
    compare_nets(&rt, wires.nets.as_slice(), &WIRED_SAYS);
}

/// A via and a net with its use behind its wiring.
const SHORT: &[u8] =
    b"VIAS 1 ; - v + VIARULE R + CUTSIZE 1 2 + LAYERS a b c + CUTSPACING 0 4 + ENCLOSURE 0 6 7 8 ;
END VIAS SPECIALNETS 1 ; - n + ROUTED m 4 + SHAPE RING ( 0 0 3 ) ( * 5 ) NEW m 0 ( 0 0 ) v N + USE POWER ;
END SPECIALNETS END DESIGN";

/// A text that ends before `END DESIGN` is refused, wherever it ends.
#[test]
fn texts_that_are_cut(rt: HostRuntime) {
    for length in 0..SHORT.len() {
        assert!(rt; read_wires(rt.alloc(), &SHORT[..length]).is_err());
    }
    assert!(rt; read_wires(rt.alloc(), SHORT).is_ok());
}
