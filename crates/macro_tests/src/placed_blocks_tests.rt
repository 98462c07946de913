//! A block of 2 by 1.4 micrometres, on its side at ( 10000 0 ), in a design with 2000 units in a micrometre.
use crate::same::same;
use block_grids::halos_of;
use def_design::read_design;
use geom_rect::Rect;
use lef_cells::read_cells;
use lef_tech::read_tech;
use macro_blocks::read_blocks;
use pdn_script::read_script;
use placed_blocks::{PlacedBlock, placed_blocks};
use std::alloc::Global;
use std::process::Abort;
use std::test::Fail;

const LEF: &[u8] = b"
LAYER metal1 TYPE ROUTING ; DIRECTION HORIZONTAL ; END metal1
LAYER via1 TYPE CUT ; END via1
LAYER metal2 TYPE ROUTING ; DIRECTION VERTICAL ; END metal2
LAYER via2 TYPE CUT ; END via2
LAYER metal3 TYPE ROUTING ; DIRECTION HORIZONTAL ; END metal3
LAYER via3 TYPE CUT ; END via3
LAYER metal4 TYPE ROUTING ; DIRECTION VERTICAL ; END metal4
END LIBRARY
";

const CELLS: &[u8] = b"MACRO B CLASS BLOCK ; SIZE 2 BY 1.4 ; END B
MACRO C CLASS CORE ; SIZE 2 BY 1.4 ; END C
END LIBRARY
";

const BLOCKS: &[u8] = b"MACRO B
PIN VDD USE POWER ; PORT LAYER metal2 ; RECT 0.2 0.1 0.4 1.3 ; LAYER via3 ; RECT 0 0 1 1 ; END END VDD
OBS LAYER via2 ; RECT 0 0 2 1.4 ; END
END B
END LIBRARY
";

const DEF: &[u8] = b"DESIGN small ; UNITS DISTANCE MICRONS 2000 ; DIEAREA ( 0 0 ) ( 20000 8000 ) ;
COMPONENTS 3 ;
- u0 C + PLACED ( 0 0 ) N ;
- b0 B ;
- b1 B + PLACED ( 10000 0 ) W ;
END COMPONENTS
END DESIGN
";

const PDN: &[u8] = b"set_voltage_domain -name CORE -power VDD -ground VSS
define_pdn_grid -name grid -voltage_domains CORE
add_pdn_stripe -grid grid -layer metal1 -width 0.17 -followpins
add_pdn_stripe -grid grid -layer metal4 -width 0.48 -pitch 4
define_pdn_grid -name blocks -macro -halo {0.5 1}
add_pdn_stripe -grid blocks -layer metal3 -width 0.48 -pitch 4
";

// The blocks with one domain, which has this region.
fn placed(
    rt: &(impl Abort + AllocGlobal),
    alloc: Global,
    region: Option<Rect>,
) -> Result<Vec<PlacedBlock>, Fail> {
    let Ok(tech) = read_tech(alloc, LEF) else {
        panic!(rt; "the technology is refused");
    };
    let Ok(cells) = read_cells(alloc, CELLS) else {
        panic!(rt; "the cells are refused");
    };
    let Ok(blocks) = read_blocks(alloc, BLOCKS) else {
        panic!(rt; "the blocks are refused");
    };
    let Ok(design) = read_design(alloc, DEF) else {
        panic!(rt; "the design is refused");
    };
    let Ok(script) = read_script(alloc, PDN) else {
        panic!(rt; "the script is refused");
    };
    let Ok(halos) = halos_of(alloc, &script, design.units) else {
        panic!(rt; "a halo is refused");
    };
    let regions = [region];
    let placed = placed_blocks(
        alloc, &tech, &cells, &blocks, &design, &script, &halos, &regions,
    )?;
    Ok(placed)
}

#[test]
fn a_block_on_its_side(rt: HostRuntime) -> Result<(), Fail> {
    let placed = placed(&rt, rt.alloc(), None)?;
    assert!(rt; placed.len() == 1);
    let block = &placed[0];
    same(
        &rt,
        (block.component, block.domain, block.grid),
        (2, Some(0), Some(1)),
    );
    same(
        &rt,
        block.outline,
        Rect {
            x1: 10000,
            y1: 0,
            x2: 12800,
            y2: 4000,
        },
    );
    same(
        &rt,
        block.grown,
        Rect {
            x1: 9000,
            y1: -2000,
            x2: 13800,
            y2: 6000,
        },
    );
    assert!(rt; block.pins.as_slice().len() == 1);
    assert!(rt; block.obstructions.as_slice().len() == 1);
    let cuts = [true, true, true, false];
    same(&rt, block.cuts.as_slice(), cuts.as_slice());
    Ok(())
}

#[test]
fn a_block_that_no_domain_owns(rt: HostRuntime) -> Result<(), Fail> {
    let region = Rect {
        x1: 0,
        y1: 0,
        x2: 10000,
        y2: 4000,
    };
    let placed = placed(&rt, rt.alloc(), Some(region))?;
    assert!(rt; placed.len() == 1);
    same(&rt, placed[0].domain, None);
    Ok(())
}
