//! The small design, drawn.
use def_design::read_design;
use grid_pieces::{DrawError, Grid};
use grid_shapes::*;
use lef_cells::read_cells;
use lef_tech::read_tech;
use pdn_script::read_script;
use std::alloc::Global;
use std::process::Abort;
use std::test::Fail;

const LEF: &[u8] = b"
LAYER metal1 TYPE ROUTING ; DIRECTION HORIZONTAL ; SPACING 0.065 ; RESISTANCE RPERSQ 0.38 ; END metal1
LAYER via1 TYPE CUT ; RESISTANCE 5 ; END via1
LAYER metal2 TYPE ROUTING ; DIRECTION VERTICAL ; SPACING 0.065 ; RESISTANCE RPERSQ 0.25 ; END metal2
VIARULE Via1Array GENERATE
LAYER metal1 ; ENCLOSURE 0 0.035 ; LAYER metal2 ; ENCLOSURE 0 0.035 ;
LAYER via1 ; RECT -0.035 -0.035 0.035 0.035 ; SPACING 0.15 BY 0.15 ;
END Via1Array
END LIBRARY
";

const CELLS: &[u8] = b"SITE unit SIZE 0.2 BY 1.4 ; END unit END LIBRARY";

const DEF: &[u8] = b"DESIGN small ; UNITS DISTANCE MICRONS 2000 ; DIEAREA ( 0 0 ) ( 8000 2800 ) ;
ROW r0 unit 0 0 N DO 20 BY 1 STEP 400 0 ; END DESIGN";

const PDN: &[u8] = b"set_voltage_domain -name CORE -power VDD -ground VSS
define_pdn_grid -name grid -voltage_domains CORE
add_pdn_stripe -grid grid -layer metal1 -width 0.17 -followpins
add_pdn_stripe -grid grid -layer metal2 -width 0.48 -pitch 4 -offset 1
add_pdn_connect -grid grid -layers {metal1 metal2}
pdngen
";

// The same with a rail on a vertical layer.
const UPRIGHT: &[u8] = b"set_voltage_domain -name CORE -power VDD -ground VSS
define_pdn_grid -name grid -voltage_domains CORE
add_pdn_stripe -grid grid -layer metal2 -width 0.17 -followpins
";

// What is drawn of a script.
fn drawn(rt: &(impl Abort + AllocGlobal), alloc: Global, pdn: &[u8]) -> Result<Grid, DrawError> {
    let Ok(tech) = read_tech(alloc, LEF) else {
        panic!(rt; "the technology is refused");
    };
    let Ok(cells) = read_cells(alloc, CELLS) else {
        panic!(rt; "the cells are refused");
    };
    let Ok(design) = read_design(alloc, DEF) else {
        panic!(rt; "the design is refused");
    };
    let Ok(script) = read_script(alloc, pdn) else {
        panic!(rt; "the script is refused");
    };
    draw(alloc, &tech, &cells, &design, &script)
}

#[test]
fn two_rails_and_two_straps(rt: HostRuntime) -> Result<(), Fail> {
    let Ok(grid) = drawn(&rt, rt.alloc(), PDN) else {
        panic!(rt; "the drawing is refused");
    };
    assert!(rt; grid.pieces.as_slice().len() == 4);
    assert!(rt; grid.stacks.as_slice().len() == 2);
    assert!(rt; grid.nets.as_slice().len() == 2);
    Ok(())
}

#[test]
fn an_upright_rail(rt: HostRuntime) {
    let refused = drawn(&rt, rt.alloc(), UPRIGHT);
    assert!(rt; matches!(refused, Err(DrawError::RailLayer(1))));
}
