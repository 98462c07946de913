//! Pins and obstructions of a macro of 2 by 1.4 micrometres at ( 10000 0 ), with 2000 units in a micrometre.
ghost use Rattle.std.specs.Prelude.{All};
ghost use Rattle.block_rects.specs.Layers.{HasNamesOf};
ghost use Rattle.macro_blocks.specs.Limits.{MacroKeeps};

use crate::same::{same, same_at};
use block_rects::*;
use geom_rect::{Orient, Rect};
use lef_tech::{LayerRef, Tech, read_tech};
use macro_blocks::{BlockMacro, read_blocks};
use macro_turns::{Placed, Point};
use std::alloc::{AllocError, Global};
use std::test::Fail;

// Wires go from left to right on the first layer, and from low to high on the second.
const LEF: &[u8] = b"
LAYER metal1 TYPE ROUTING ; DIRECTION HORIZONTAL ; END metal1
LAYER via1 TYPE CUT ; END via1
LAYER metal2 TYPE ROUTING ; DIRECTION VERTICAL ; END metal2
END LIBRARY
";

const TALL: &[u8] = b"MACRO B PIN P USE POWER ; PORT LAYER metal2 ;
RECT 0.2 0.1 0.4 1.3 ; END END P END B END LIBRARY";

// It lies off the centre in both directions.
const LOW: &[u8] = b"MACRO B PIN P USE POWER ; PORT LAYER metal1 ;
RECT 0.1 0.2 0.5 0.3 ; END END P END B END LIBRARY";

// From 400 up to 801 in x.
const ODD: &[u8] = b"MACRO B PIN P USE POWER ; PORT LAYER metal2 ;
RECT 0.2 0.1 0.4005 0.2 ; END END P END B END LIBRARY";

// From -0.2 up to 800.98 in x.
const ROUNDED: &[u8] = b"MACRO B PIN P USE POWER ; PORT LAYER metal2 ;
RECT -0.0001 0.1 0.40049 0.2 ; END END P END B END LIBRARY";

// From 400 up to 401 in x.
const THIN: &[u8] = b"MACRO B PIN P USE POWER ; PORT LAYER metal2 ;
RECT 0.2 0.1 0.2005 0.2 ; END END P END B END LIBRARY";

// Two pins and obstructions, on layers that are unknown or of cuts too, and some without area.
const MANY: &[u8] = b"MACRO B
PIN P USE POWER ; PORT LAYER metal9 ; RECT 0.2 0.1 0.4 0.2 ; LAYER via1 ; RECT 0.2 0.1 0.4 0.2 ;
LAYER metal2 ; RECT 0.2 0.1 0.2 0.2 ; RECT 0.2 0.1 0.4 0.2 ; END END P
PIN G USE GROUND ; PORT LAYER metal1 ; RECT 0.2 0.1 0.4 0.2 ; END END G
OBS LAYER metal9 ; RECT 0 0 2 1.4 ; LAYER metal2 ; RECT 0.2 0.1 0.4005 0.2 ;
LAYER via1 ; RECT 0.2 0.1 0.2 0.2 ; END
END B
END LIBRARY
";

fn rect(x1: i64, y1: i64, x2: i64, y2: i64) -> Rect {
    Rect { x1, y1, x2, y2 }
}

// The parts of the pins of a macro in its place, and its obstructions.
fn of_macro<'a>(
    alloc: Global,
    tech: &Tech,
    names: &LayerNames<'a>,
    macros: &'a [BlockMacro],
    place: usize,
    orient: Orient,
) -> Result<(Vec<PinPart>, Vec<Obstruction>), AllocError>
    requires names { HasNamesOf tech.now names.now }
    requires macros { All MacroKeeps macros.now }
{
    let placed = Placed {
        corner: Point { x: 10000, y: 0 },
        orient,
        width: 4000,
        height: 2800,
    };
    match macros.get(place) {
        Some(cell) => {
            let parts = parts_of(alloc, tech, names, 2000, placed, cell)?;
            let obstructions = obstructions_of(alloc, tech, names, 2000, placed, cell)?;
            Ok((parts, obstructions))
        }
        None => Ok((Vec::new(alloc), Vec::new(alloc))),
    }
}

// The same of the first macro of a text.
fn in_place(
    alloc: Global,
    text: &[u8],
    orient: Orient,
) -> Result<(Vec<PinPart>, Vec<Obstruction>), Fail> {
    let tech = read_tech(alloc, LEF)?;
    let blocks = read_blocks(alloc, text)?;
    let names = layer_names(alloc, &tech)?;
    let both = of_macro(alloc, &tech, &names, blocks.macros.as_slice(), 0, orient)?;
    Ok(both)
}

// The first part.
fn first_part(alloc: Global, text: &[u8], orient: Orient) -> Result<Option<Rect>, Fail> {
    let (parts, _) = in_place(alloc, text, orient)?;
    match parts.first() {
        Some(part) => Ok(Some(part.rect)),
        None => Ok(None),
    }
}

#[test]
fn parts_in_their_places(rt: HostRuntime) -> Result<(), Fail> {
    let cases = [
        (TALL, Orient::S, Some(rect(13200, 200, 13600, 2600))),
        (TALL, Orient::W, Some(rect(10200, 400, 12600, 800))),
        (LOW, Orient::N, Some(rect(10200, 400, 11000, 600))),
        (LOW, Orient::S, Some(rect(13000, 2200, 13800, 2400))),
        (LOW, Orient::W, Some(rect(12200, 200, 12400, 1000))),
        (LOW, Orient::E, Some(rect(10400, 3000, 10600, 3800))),
        (LOW, Orient::FN, Some(rect(13000, 400, 13800, 600))),
        (LOW, Orient::FS, Some(rect(10200, 2200, 11000, 2400))),
        (LOW, Orient::FW, Some(rect(10400, 200, 10600, 1000))),
        (LOW, Orient::FE, Some(rect(12200, 3000, 12400, 3800))),
        (ODD, Orient::N, Some(rect(10400, 200, 10800, 400))),
        (ODD, Orient::S, Some(rect(13199, 2400, 13599, 2600))),
        (ODD, Orient::W, Some(rect(12400, 400, 12600, 801))),
        (ROUNDED, Orient::N, Some(rect(9999, 200, 10799, 400))),
        (ROUNDED, Orient::S, Some(rect(13200, 2400, 14000, 2600))),
        (THIN, Orient::N, None),
        (THIN, Orient::W, Some(rect(12400, 400, 12600, 401))),
    ];
    for (text, orient, want) in cases {
        same_at(&rt, first_part(rt.alloc(), text, orient)?, want, orient);
    }
    Ok(())
}

#[test]
fn what_is_left_out(rt: HostRuntime) -> Result<(), Fail> {
    let (parts, obstructions) = in_place(rt.alloc(), MANY, Orient::N)?;
    let power = PinPart {
        layer: 1,
        power: true,
        rect: rect(10400, 200, 10800, 400),
    };
    let ground = PinPart {
        layer: 0,
        power: false,
        ..power
    };
    same(&rt, parts.as_slice(), [power, ground].as_slice());
    let odd = Obstruction {
        layer: LayerRef::Routing(1),
        rect: rect(10400, 200, 10801, 400),
    };
    let flat = Obstruction {
        layer: LayerRef::Cut(0),
        rect: rect(10400, 200, 10400, 400),
    };
    same(&rt, obstructions.as_slice(), [odd, flat].as_slice());
    Ok(())
}
