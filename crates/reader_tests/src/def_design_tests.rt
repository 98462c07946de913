//! Designs that are read, with wires and without. What each section says, and where a text is refused, is told by cases.
use crate::same::same;
use DefKind::AlreadyRouted;
use def_design::{DefError, DefKind, Design, read_design, read_placed};
use geom_rect::{Orient, Rect};
use outside::Place;
use std::process::Abort;

/// The small design.
const SMALL: &[u8] = b"VERSION 5.8 ;
DESIGN small ;
UNITS DISTANCE MICRONS 2000 ;
DIEAREA ( 0 0 ) ( 8000 2800 ) ;
ROW r0 unit 0 0 N DO 20 BY 1 STEP 400 0 ;
COMPONENTS 1 ;
- u1 C0 + PLACED ( 2400 0 ) N ;
END COMPONENTS
END DESIGN
";

/// A design with a wire.
const ROUTED: &[u8] = b"DESIGN small ; UNITS DISTANCE MICRONS 2000 ; DIEAREA ( 0 0 ) ( 8000 2800 ) ;
SPECIALNETS 1 ; - VDD + ROUTED m1 200 ( 0 0 ) ( 1 0 ) ; END SPECIALNETS
END DESIGN
";

fn compare(rt: &impl Abort, design: &Design, rows: usize) {
    let die = Rect {
        x1: 0,
        y1: 0,
        x2: 8000,
        y2: 2800,
    };
    same(rt, design.name.bytes(), b"small".as_slice());
    same(rt, design.units, 2000);
    same(rt, design.die, die);
    same(rt, design.rows.as_slice().len(), rows);
}

#[test]
fn small_design(rt: HostRuntime) {
    let design = read_design(rt.alloc(), SMALL).expect(&rt, "a design");
    compare(&rt, &design, 1);
    for component in design.components.as_slice() {
        same(&rt, component.name.bytes(), b"u1".as_slice());
        same(&rt, component.place, Some((2400, 0, Orient::N)));
    }
}

#[test]
fn wires_of_a_placed_design_are_passed_over(rt: HostRuntime) {
    let design = read_placed(rt.alloc(), ROUTED).expect(&rt, "a placed design");
    compare(&rt, &design, 0);
    let place = Place { line: 2, word: 7 };
    let kind = AlreadyRouted;
    same(
        &rt,
        read_design(rt.alloc(), ROUTED).err(),
        Some(DefError { place, kind }),
    );
}
