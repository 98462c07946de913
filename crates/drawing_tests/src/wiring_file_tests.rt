//! The wiring of the small design, and texts of other forms, whose refusals were worked out from the form.
use crate::same::{same, same_at};
use WiringKind::{BadString, Number, Syntax};
use fixed_decimal::DecimalError::{NotNumber, Range};
use outside::Place;
use small_design::WRITTEN;
use std::alloc::Global;
use std::test::Fail;
use wiring_file::*;

#[test]
fn small_design_read_back(rt: HostRuntime) -> Result<(), Fail> {
    let wiring = read_wiring(rt.alloc(), WRITTEN)?;
    assert!(rt; wiring.vias.as_slice().len() == 3);
    assert!(rt; wiring.wires.as_slice().len() == 4);
    assert!(rt; wiring.places.as_slice().len() == 6);
    let via = &wiring.vias.as_slice()[1];
    same(&rt, via.name.bytes(), b"pdn_2_3_1".as_slice());
    same(&rt, via.upper.bytes(), b"metal3".as_slice());
    same(
        &rt,
        (via.lower_x, via.lower_y, via.upper_x, via.upper_y),
        (0, 70, 70, 0),
    );
    same(&rt, (via.rows, via.columns), (1, 3));
    let wire = &wiring.wires.as_slice()[3];
    same(&rt, wire.net.bytes(), b"VSS".as_slice());
    same(
        &rt,
        (wire.x1, wire.y1, wire.x2, wire.y2),
        (2000, -170, 2000, 2970),
    );
    let place = &wiring.places.as_slice()[2];
    same(&rt, place.net.bytes(), b"VDD".as_slice());
    same(&rt, (place.x, place.y), (6000, 2800));
    same(&rt, place.via.bytes(), b"pdn_3_3_1".as_slice());
    Ok(())
}

#[test]
fn half_of_the_small_design(rt: HostRuntime) {
    let half = WRITTEN.len() / 2;
    match read_wiring(rt.alloc(), &WRITTEN[..half]) {
        Ok(_) => assert!(rt; false, "the half is no wiring"),
        Err(error) => same(&rt, error.kind, Syntax),
    }
}

/// What stands before the vias.
const HEAD: &str =
    "VERSION 5.8 ; DIVIDERCHAR \"/\" ; BUSBITCHARS \"[]\" ; DESIGN d ; UNITS DISTANCE MICRONS 2000 ; DIEAREA ( 0 0 ) ( 9 9 ) ;";

/// Texts after the head, and how many vias, wires and places they have.
const READ: [(&str, usize, usize, usize); 4] = [
    (
        "VIAS 0 ; END VIAS SPECIALNETS 0 ; END SPECIALNETS END DESIGN",
        0,
        0,
        0,
    ),
    (
        "VIAS 0 ; END VIAS SPECIALNETS 1 ; - n + USE POWER ; END SPECIALNETS END DESIGN # nothing else",
        0,
        0,
        0,
    ),
    (
        "VIAS 0 ; END VIAS SPECIALNETS 1 ; - n + USE GROUND + ROUTED m 0 + SHAPE STRIPE ( 1 -2 ) v ; END SPECIALNETS END DESIGN",
        0,
        0,
        1,
    ),
    (
        "VIAS 0 ; END VIAS SPECIALNETS 1 ; - n + USE GROUND + ROUTED m 2 + SHAPE RING ( 1 2 ) ( 1 3 ) NEW m 0 + SHAPE STRIPE ( 1 2 ) v ; END SPECIALNETS END DESIGN",
        0,
        1,
        1,
    ),
];

/// A text of a head and what follows it.
fn text_of(alloc: Global, rest: &str) -> Result<String, Fail> {
    let mut text = String::from_str(alloc, HEAD)?;
    text.push_str("\n")?;
    text.push_str(rest)?;
    Ok(text)
}

#[test]
fn texts_that_are_read(rt: HostRuntime) -> Result<(), Fail> {
    for (rest, vias, wires, places) in READ {
        let text = text_of(rt.alloc(), rest)?;
        let wiring = read_wiring(rt.alloc(), text.as_bytes())?;
        same_at(&rt, wiring.vias.as_slice().len(), vias, rest);
        same_at(&rt, wiring.wires.as_slice().len(), wires, rest);
        same_at(&rt, wiring.places.as_slice().len(), places, rest);
    }
    Ok(())
}

/// Texts after the head, the word of their refusal on the second line, and what is wrong with it.
const REFUSED: [(&str, u64, WiringKind); 14] = [
    // the counts
    ("VIAS 1 ; END VIAS", 4, Syntax),
    ("VIAS 0 ; - v", 4, Syntax),
    ("VIAS -1 ;", 2, Syntax),
    ("VIAS x ;", 2, Number(NotNumber)),
    ("VIAS 2305843009213693953 ;", 2, Number(Range)),
    ("VIAS 0 ; END VIAS SPECIALNETS 1 ; END", 9, Syntax),
    ("VIAS 0 ; END VIAS SPECIALNETS 0 ; - n", 9, Syntax),
    // the lines of a net
    (
        "VIAS 0 ; END VIAS SPECIALNETS 1 ; - n + USE POWER NEW",
        14,
        Syntax,
    ),
    (
        "VIAS 0 ; END VIAS SPECIALNETS 1 ; - n + USE POWER + ROUTED m 0 + SHAPE RING",
        20,
        Syntax,
    ),
    (
        "VIAS 0 ; END VIAS SPECIALNETS 1 ; - n + USE POWER + ROUTED m 0 + SHAPE STRIPE ( 1 2 ) (",
        25,
        Syntax,
    ),
    (
        "VIAS 0 ; END VIAS SPECIALNETS 1 ; - n + USE POWER + ROUTED m 2 + SHAPE STRIPE ( 1 2 ) v",
        25,
        Syntax,
    ),
    (
        "VIAS 0 ; END VIAS SPECIALNETS 1 ; - n + USE POWER + ROUTED m 0 + SHAPE STRIPE ( 1 2 ) v NEW m 2",
        28,
        Syntax,
    ),
    // the end
    (
        "VIAS 0 ; END VIAS SPECIALNETS 0 ; END SPECIALNETS END DESIGN more",
        13,
        Syntax,
    ),
    ("VIAS 0 ; END \"VIAS", 5, BadString),
];

#[test]
fn texts_that_are_refused(rt: HostRuntime) -> Result<(), Fail> {
    for (rest, word, kind) in REFUSED {
        let text = text_of(rt.alloc(), rest)?;
        match read_wiring(rt.alloc(), text.as_bytes()) {
            Ok(_) => assert!(rt; false, "{rest} is read"),
            Err(error) => {
                same_at(&rt, error.kind, kind, rest);
                same_at(&rt, error.place, Place { line: 2, word }, rest);
            }
        }
    }
    Ok(())
}
