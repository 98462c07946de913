//! Drawn grids, written and read back, beside the grid's own pieces and stacks.
ghost use Rattle.std.specs.Prelude.{IfOk, IfSome};
ghost use Rattle.def_writer.specs.Limits.{GridFits};
ghost use Rattle.lef_tech.specs.Limits.{TechKeeps};

use crate::made::MADE;
use crate::same::same_at;
use def_design::{Design, read_design};
use def_writer::def_text;
use drawn_grids::drawings_are_grids;
use geom_rect::{Axis, Shape};
use grid_pieces::{Grid, Piece, StackAt};
use grid_shapes::draw;
use lef_cells::read_cells;
use lef_tech::{Tech, read_tech};
use pdn_script::read_script;
use std::alloc::{AllocError, Global};
use std::process::Abort;
use std::test::Fail;
use via_arrays::CutArray;
use wiring_file::{PlaceText, ViaText, WireText, Wiring, read_wiring};

/// Four routing layers, of which two have names that are words of DEF, and five rules: the first is for wide wires.
const LEF: &str = "
LAYER metal1 TYPE ROUTING ; DIRECTION HORIZONTAL ; SPACING 0.065 ; RESISTANCE RPERSQ 0.38 ; END metal1
LAYER END TYPE CUT ; RESISTANCE 5 ; END END
LAYER NEW TYPE ROUTING ; DIRECTION VERTICAL ; SPACING 0.065 ; RESISTANCE RPERSQ 0.25 ; END NEW
LAYER via2 TYPE CUT ; RESISTANCE 5 ; END via2
LAYER + TYPE ROUTING ; DIRECTION HORIZONTAL ; SPACING 0.065 ; RESISTANCE RPERSQ 0.25 ; END +
LAYER via3 TYPE CUT ; RESISTANCE 5 ; END via3
LAYER metal4 TYPE ROUTING ; DIRECTION VERTICAL ; SPACING 0.14 ; RESISTANCE RPERSQ 0.21 ; END metal4
VIARULE Wide GENERATE
LAYER + ; ENCLOSURE 0.02 0.035 ; WIDTH 0.3 TO 9 ; LAYER metal4 ; ENCLOSURE 0 0.01 ;
LAYER via3 ; RECT -0.07 -0.07 0.07 0.07 ; SPACING 0.3 BY 0.2 ; END Wide
VIARULE ( GENERATE
LAYER metal1 ; ENCLOSURE 0 0.035 ; LAYER NEW ; ENCLOSURE 0 0.035 ;
LAYER END ; RECT -0.035 -0.035 0.035 0.035 ; SPACING 0.15 BY 0.15 ; END (
VIARULE SHAPE GENERATE
LAYER NEW ; ENCLOSURE 0 0.035 ; LAYER + ; ENCLOSURE 0.01 0.035 ;
LAYER via2 ; RECT -0.035 -0.02 0.035 0.02 ; SPACING 0.15 BY 0.1 ; END SHAPE
VIARULE Array3 GENERATE
LAYER + ; ENCLOSURE 0 0.035 ; LAYER metal4 ; ENCLOSURE 0 0.035 ;
LAYER via3 ; RECT -0.035 -0.035 0.035 0.035 ; SPACING 0.15 BY 0.15 ; END Array3
END LIBRARY
";

const CELLS: &str = "SITE unit SIZE 0.2 BY 1.4 ; END unit END LIBRARY";

/// A grid with the technology and the design that it was drawn of.
#[derive(Drop)]
struct Drawn {
    tech: Tech,
    design: Design,
    grid: Grid,
}

/// What is drawn of these texts, if nothing refuses it.
fn drawing(alloc: Global, def: &str, pdn: &str) -> Result<Option<Drawn>, Fail>
    ensures { IfOk result (λ found. IfSome found (λ drawn. TechKeeps drawn.tech × GridFits drawn.tech drawn.grid)) }
{
    drawings_are_grids();
    let tech = read_tech(alloc, LEF.as_bytes())?;
    let cells = read_cells(alloc, CELLS.as_bytes())?;
    let design = read_design(alloc, def.as_bytes())?;
    let script = read_script(alloc, pdn.as_bytes())?;
    match draw(alloc, &tech, &cells, &design, &script) {
        Ok(grid) => Ok(Some(Drawn { tech, design, grid })),
        Err(_) => Ok(None),
    }
}

/// The name at a place.
fn net_at(grid: &Grid, net: u32) -> &[u8] {
    match grid.nets.as_slice().get(net as usize) {
        Some(name) => name.bytes(),
        None => b"",
    }
}

fn layer_at(tech: &Tech, layer: u32) -> &[u8] {
    match tech.routing.as_slice().get(layer as usize) {
        Some(layer) => layer.name.bytes(),
        None => b"",
    }
}

/// Whether a piece is written so.
fn is_piece(tech: &Tech, grid: &Grid, piece: &Piece, wire: &WireText) -> bool {
    let shape: &[u8] = match piece.shape {
        Shape::Ring => b"RING",
        Shape::Stripe => b"STRIPE",
        Shape::FollowPin => b"FOLLOWPIN",
    };
    let ends = match piece.axis {
        Axis::X => (piece.from, piece.centre, piece.to, piece.centre),
        Axis::Y => (piece.centre, piece.from, piece.centre, piece.to),
    };
    wire.net.bytes() == net_at(grid, piece.net)
        && wire.layer.bytes() == layer_at(tech, piece.layer)
        && wire.width == piece.width
        && wire.shape.bytes() == shape
        && (wire.x1, wire.y1, wire.x2, wire.y2) == ends
}

/// Whether an array of a stack, which is joined to this layer from above, is written so.
fn is_place(
    tech: &Tech,
    grid: &Grid,
    stack: &StackAt,
    layer: usize,
    name: &[u8],
    place: &PlaceText,
) -> bool {
    let on_layer = match tech.routing.as_slice().get(layer) {
        Some(layer) => layer.name.bytes() == place.layer.bytes(),
        None => false,
    };
    on_layer
        && place.net.bytes() == net_at(grid, stack.net)
        && (place.x, place.y) == (stack.x, stack.y)
        && place.via.bytes() == name
}

/// Whether the via of an array is written so.
fn is_via(tech: &Tech, array: &CutArray, via: &ViaText) -> bool {
    let Some(rule) = tech.rules.as_slice().get(array.rule as usize) else {
        return false;
    };
    let Some(cut) = tech.cuts.as_slice().get(rule.cut as usize) else {
        return false;
    };
    via.rule.bytes() == rule.name.bytes()
        && via.lower.bytes() == layer_at(tech, rule.lower)
        && via.cut.bytes() == cut.name.bytes()
        && via.upper.bytes() == layer_at(tech, rule.upper)
        && (via.cut_x, via.cut_y) == (array.cut_x, array.cut_y)
        && via.gap_x == array.pitch_x.wrapping_sub(array.cut_x)
        && via.gap_y == array.pitch_y.wrapping_sub(array.cut_y)
        && (via.lower_x, via.lower_y) == (array.lower_x, array.lower_y)
        && (via.upper_x, via.upper_y) == (array.upper_x, array.upper_y)
        && (via.rows, via.columns) == (array.rows as i64, array.columns as i64)
}

/// How many vias have the name of an array's, and whether they are its via.
fn vias_of(tech: &Tech, array: &CutArray, name: &[u8], wiring: &Wiring) -> (usize, bool) {
    let (mut count, mut same) = (0usize, true);
    for via in wiring.vias.as_slice() {
        if via.name.bytes() == name {
            count = count.wrapping_add(1);
            same = same && is_via(tech, array, via);
        }
    }
    (count, same)
}

/// Whether some array of the wiring is of the via.
fn is_used(via: &ViaText, wiring: &Wiring) -> bool {
    for place in wiring.places.as_slice() {
        if place.via.bytes() == via.name.bytes() {
            return true;
        }
    }
    false
}

/// Compares the pieces of a grid with those that were read.
fn compare_pieces(rt: &(impl Abort + AllocGlobal), tech: &Tech, grid: &Grid, wires: &[WireText]) {
    let pieces = grid.pieces.as_slice();
    assert!(rt; wires.len() == pieces.len());
    for (piece, wire) in pieces.iter().zip(wires.iter()) {
        assert!(rt;
            is_piece(tech, grid, piece, wire),
            "a piece is read as another"
        );
    }
}

/// The name of the via of an array.
fn via_name(alloc: Global, array: &CutArray) -> Result<String, AllocError> {
    format!(in alloc;
        "pdn_{}_{}_{}",
        array.rule as u64 + 1,
        array.columns,
        array.rows
    )
}

/// Compares the arrays of the stacks of a grid with those that were read, and the vias with those of the arrays.
fn compare_stacks(
    rt: &(impl Abort + AllocGlobal),
    alloc: Global,
    tech: &Tech,
    grid: &Grid,
    wiring: &Wiring,
) -> Result<(), Fail> {
    let mut places = wiring.places.as_slice().iter();
    for stack in grid.stacks.as_slice() {
        for (level, array) in stack.stack.arrays.as_slice().iter().enumerate() {
            let layer = (stack.stack.from as usize).wrapping_add(level);
            let name = via_name(alloc, array)?;
            let Some(place) = places.next() else {
                panic!(rt; "an array is missing");
            };
            let same = is_place(tech, grid, stack, layer, name.as_bytes(), place);
            assert!(rt; same, "an array is read as another");
            let vias = vias_of(tech, array, name.as_bytes(), wiring);
            same_at(rt, vias, (1, true), "the via of an array");
        }
    }
    assert!(rt; places.next().is_none(), "an array too many");
    for via in wiring.vias.as_slice() {
        assert!(rt; is_used(via, wiring), "a via of no array");
    }
    Ok(())
}

/// The wiring that is read of the written grid, once it is compared with the grid.
fn read_back(rt: &(impl Abort + AllocGlobal), alloc: Global, drawn: &Drawn) -> Result<Wiring, Fail>
    requires tech { TechKeeps drawn.now.tech }
    requires grid { GridFits drawn.now.tech drawn.now.grid }
{
    let text = def_text(alloc, &drawn.design, &drawn.tech, &drawn.grid)?;
    let wiring = read_wiring(alloc, text.as_slice())?;
    compare_pieces(rt, &drawn.tech, &drawn.grid, wiring.wires.as_slice());
    compare_stacks(rt, alloc, &drawn.tech, &drawn.grid, &wiring)?;
    Ok(wiring)
}

#[test]
fn made_up_grids(rt: HostRuntime) -> Result<(), Fail> {
    let mut arrays = 0usize;
    for (def, pdn) in MADE {
        let Some(found) = drawing(rt.alloc(), def, pdn)? else {
            panic!(rt; "nothing is drawn of {pdn}");
        };
        let wiring = read_back(&rt, rt.alloc(), &found)?;
        arrays = arrays.wrapping_add(wiring.places.as_slice().len());
    }
    assert!(rt; 200 <= arrays, "{arrays} arrays");
    Ok(())
}

const DEF: &str = "DESIGN d ; UNITS DISTANCE MICRONS 2000 ; DIEAREA ( 0 0 ) ( 8000 2800 ) ;
ROW r unit 0 0 N DO 20 BY 1 STEP 400 0 ; END DESIGN";

/// Scripts, and how many nets, vias, pieces and arrays their grids have: no net; no via; a net without a piece; both.
const SMALL: [(&str, (usize, usize, usize, usize)); 4] = [
    ("pdngen\n", (0, 0, 0, 0)),
    (
        "set_voltage_domain -power P -ground G\ndefine_pdn_grid -name g\nadd_pdn_stripe -layer metal1 -width 0.17 -followpins\n",
        (2, 0, 2, 0),
    ),
    (
        "set_voltage_domain -power P -ground G\ndefine_pdn_grid -name g\nadd_pdn_stripe -layer metal4 -width 0.4 -pitch 2 -offset 1 -nets P
add_pdn_stripe -layer + -width 0.4 -pitch 0.7 -offset 0.35 -nets P\nadd_pdn_connect -layers {+ metal4}\n",
        (2, 1, 4, 4),
    ),
    (
        "set_voltage_domain -power P -ground G\ndefine_pdn_grid -name g\n",
        (2, 0, 0, 0),
    ),
];

#[test]
fn small_grids(rt: HostRuntime) -> Result<(), Fail> {
    for (pdn, counts) in SMALL {
        let Some(found) = drawing(rt.alloc(), DEF, pdn)? else {
            panic!(rt; "nothing is drawn of {pdn}");
        };
        let wiring = read_back(&rt, rt.alloc(), &found)?;
        let nets = found.grid.nets.as_slice().len();
        let vias = wiring.vias.as_slice().len();
        let wires = wiring.wires.as_slice().len();
        let places = wiring.places.as_slice().len();
        same_at(&rt, (nets, vias, wires, places), counts, pdn);
    }
    Ok(())
}
