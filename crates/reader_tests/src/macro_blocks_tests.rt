//! Blocks that are read and joined. What each section says, and where a text is refused, is told by cases: 1 µm is 10^6 pm.
use crate::same::same;
use macro_blocks::{BlockPin, BlockRect, Blocks, read_blocks};
use std::process::Abort;

/// A layer and the corners of a rectangle.
type SaidRect = (&'static [u8], i64, i64, i64, i64);

/// A name, whether the use is POWER, and the rectangles.
struct SaidPin {
    name: &'static [u8],
    power: bool,
    rects: &'static [SaidRect],
}

/// A name, the pins and the obstructions.
struct SaidMacro {
    name: &'static [u8],
    pins: &'static [SaidPin],
    obstructions: &'static [SaidRect],
}

fn compare_rects(rt: &impl Abort, rects: &[BlockRect], said: &[SaidRect]) {
    same(rt, rects.len(), said.len());
    for (rect, want) in rects.iter().zip(said) {
        same(
            rt,
            (rect.layer.bytes(), rect.x1, rect.y1, rect.x2, rect.y2),
            *want,
        );
    }
}

fn compare_pins(rt: &impl Abort, pins: &[BlockPin], said: &[SaidPin]) {
    same(rt, pins.len(), said.len());
    for (pin, want) in pins.iter().zip(said) {
        same(rt, (pin.name.bytes(), pin.power), (want.name, want.power));
        compare_rects(rt, pin.rects.as_slice(), want.rects);
    }
}

fn compare(rt: &impl Abort, blocks: &Blocks, said: &[SaidMacro]) {
    same(rt, blocks.macros.as_slice().len(), said.len());
    for (cell, want) in blocks.macros.as_slice().iter().zip(said) {
        same(rt, cell.name.bytes(), want.name);
        compare_pins(rt, cell.pins.as_slice(), want.pins);
        compare_rects(rt, cell.obstructions.as_slice(), want.obstructions);
    }
}

/// Two libraries as one: the first one's macros, and those of the second whose names the first has not.
static JOINED_SAY: [SaidMacro; 4] = [
    SaidMacro {
        name: b"a",
        pins: &[SaidPin {
            name: b"p",
            power: true,
            rects: &[(b"m4", 200_000, 100_000, 400_000, 1_300_000)],
        }],
        obstructions: &[(b"m2", 0, 0, 2_000_000, 1_400_000)],
    },
    SaidMacro {
        name: b"b",
        pins: &[],
        obstructions: &[],
    },
    SaidMacro {
        name: b"c",
        pins: &[],
        obstructions: &[],
    },
    SaidMacro {
        name: b"c",
        pins: &[],
        obstructions: &[],
    },
];

const FIRST: &[u8] =
    b"MACRO a PIN p USE POWER ; PORT LAYER m4 ; RECT 0.2 0.1 0.4 1.3 ; END END p OBS LAYER m2 ; RECT 0 0 2 1.4 ; END END a MACRO b END b";

const SECOND: &[u8] =
    b"MACRO b PIN q USE GROUND ; END q END b MACRO c END c MACRO a END a MACRO c END c";

#[test]
fn libraries_that_are_joined(rt: HostRuntime) {
    let first = read_blocks(rt.alloc(), FIRST).expect(&rt, "blocks");
    let second = read_blocks(rt.alloc(), SECOND).expect(&rt, "other blocks");
    let joined = first.join(second).expect(&rt, "memory");
    compare(&rt, &joined, &JOINED_SAY);
}
