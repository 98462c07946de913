//! A block of 2 by 1.4 micrometres on its side at ( 10000 0 ), in a design with 2000 units in a micrometre, with a grid of its own; and
//! one at ( 0 0 ) that has another grid and that no domain owns.
ghost use Rattle.std.specs.Prelude.{IfOk, All};
ghost use Rattle.grid_plan.specs.Keeping.{PlanKeeps};
ghost use Rattle.placed_blocks.specs.Limits.{BlockKeeps};

use crate::same::same;
use block_grids::halos_of;
use block_stripes::*;
use def_design::read_design;
use geom_rect::{Axis, Drawn, Rect, Shape};
use grid_plan::{Plan, plan};
use halo_cuts::GridShape;
use lef_cells::read_cells;
use lef_tech::{Tech, read_tech};
use macro_blocks::read_blocks;
use pdn_script::read_script;
use pin_shapes::pin_shapes;
use placed_blocks::{PlacedBlock, placed_blocks};
use std::alloc::Global;
use std::process::Abort;
use std::test::Fail;

const LEF: &[u8] = b"
LAYER metal1 TYPE ROUTING ; DIRECTION HORIZONTAL ; END metal1
LAYER via1 TYPE CUT ; END via1
LAYER metal2 TYPE ROUTING ; DIRECTION VERTICAL ; END metal2
LAYER via2 TYPE CUT ; END via2
LAYER metal3 TYPE ROUTING ; DIRECTION HORIZONTAL ; END metal3
LAYER via3 TYPE CUT ; END via3
LAYER metal4 TYPE ROUTING ; DIRECTION VERTICAL ; END metal4
END LIBRARY
";

const CELLS: &[u8] = b"SITE unit SIZE 0.2 BY 1.4 ; END unit
MACRO B CLASS BLOCK ; SIZE 2 BY 1.4 ; END B
END LIBRARY
";

const BLOCKS: &[u8] = b"MACRO B
PIN P USE POWER ; PORT LAYER metal2 ; RECT 0.2 0.1 0.4 1.3 ; END END P
PIN G USE GROUND ; PORT LAYER metal1 ; RECT 0.1 0.2 0.5 0.3 ; END END G
END B
END LIBRARY
";

const DEF: &[u8] = b"DESIGN small ; UNITS DISTANCE MICRONS 2000 ; DIEAREA ( 0 0 ) ( 20000 8000 ) ;
COMPONENTS 2 ;
- b0 B + PLACED ( 0 0 ) N ;
- b1 B + PLACED ( 10000 0 ) W ;
END COMPONENTS
END DESIGN
";

// The same without its blocks, since a plan refuses them with grids over macros.
const BARE: &[u8] = b"DESIGN small ; UNITS DISTANCE MICRONS 2000 ; DIEAREA ( 0 0 ) ( 20000 8000 ) ;
ROW r0 unit 0 0 N DO 20 BY 1 STEP 400 0 ;
END DESIGN
";

const PDN: &[u8] = b"set_voltage_domain -name CORE -power VDD -ground VSS
define_pdn_grid -name grid -voltage_domains CORE
add_pdn_stripe -grid grid -layer metal4 -width 0.48 -pitch 4
define_pdn_grid -name own -macro -instances b1
add_pdn_stripe -grid own -layer metal3 -width 0.48 -pitch 2 -offset 0.5 -starts_with POWER
add_pdn_ring -grid own -layers {metal3 metal4} -widths {0.2 0.4} -spacings 0.1 -core_offsets 0.1 -starts_with GROUND
define_pdn_grid -name others -macro
";

#[derive(Drop)]
struct OverBlocks {
    tech: Tech,
    plan: Plan,
    blocks: Vec<PlacedBlock>,
}

// The plan, and the blocks in their places with one domain that owns what lies past 8000 in x.
fn made(rt: &(impl Abort + AllocGlobal), alloc: Global) -> Result<OverBlocks, Fail>
    ensures { IfOk result (λ made. PlanKeeps made.tech made.plan × All (BlockKeeps made.tech) made.blocks.items) }
{
    let tech = read_tech(alloc, LEF)?;
    let cells = read_cells(alloc, CELLS)?;
    let blocks = read_blocks(alloc, BLOCKS)?;
    let design = read_design(alloc, DEF)?;
    let bare = read_design(alloc, BARE)?;
    let script = read_script(alloc, PDN)?;
    let Ok(halos) = halos_of(alloc, &script, design.units) else {
        panic!(rt; "a halo is refused");
    };
    let regions = [Some(Rect {
        x1: 8000,
        y1: 0,
        x2: 20000,
        y2: 8000,
    })];
    let blocks = placed_blocks(
        alloc, &tech, &cells, &blocks, &design, &script, &halos, &regions,
    )?;
    let Ok(plan) = plan(alloc, &tech, &cells, &bare, &script) else {
        panic!(rt; "the plan is refused");
    };
    Ok(OverBlocks { tech, plan, blocks })
}

// A strap over the block.
fn strap(net: u32, centre: i64) -> GridShape {
    GridShape {
        grid: 1,
        shape: Drawn {
            net,
            layer: 2,
            axis: Axis::X,
            centre,
            width: 960,
            from: 10000,
            to: 12800,
            shape: Shape::Stripe,
        },
    }
}

// A left or right side of a ring.
fn upright(net: u32, centre: i64, from: i64, to: i64) -> GridShape {
    GridShape {
        grid: 1,
        shape: Drawn {
            net,
            layer: 3,
            axis: Axis::Y,
            centre,
            width: 800,
            from,
            to,
            shape: Shape::Ring,
        },
    }
}

// A lower or upper one.
fn flat(net: u32, centre: i64, from: i64, to: i64) -> GridShape {
    GridShape {
        grid: 1,
        shape: Drawn {
            net,
            layer: 2,
            axis: Axis::X,
            centre,
            width: 400,
            from,
            to,
            shape: Shape::Ring,
        },
    }
}

#[test]
fn straps_and_rings_over_a_block(rt: HostRuntime) -> Result<(), Fail> {
    let alloc = rt.alloc();
    let made = made(&rt, alloc)?;
    let boxes = block_boxes(alloc, &made.tech, &made.blocks)?;
    let outline = Rect {
        x1: 10000,
        y1: 0,
        x2: 12800,
        y2: 4000,
    };
    same(
        &rt,
        boxes.last().copied(),
        Some(BlockBox { grid: 1, outline }),
    );
    let Ok(straps) = block_straps(alloc, &made.tech, &made.plan, &boxes) else {
        panic!(rt; "the straps are refused");
    };
    same(
        &rt,
        straps.as_slice(),
        [strap(0, 1000), strap(1, 3000)].as_slice(),
    );
    let Ok(rings) = block_rings(alloc, &made.tech, &made.plan, &boxes) else {
        panic!(rt; "the rings are refused");
    };
    let sides = [
        upright(1, 9400, -600, 4600),
        flat(1, -400, 9000, 13800),
        upright(1, 13400, -600, 4600),
        flat(1, 4400, 9000, 13800),
        upright(0, 8400, -1200, 5200),
        flat(0, -1000, 8000, 14800),
        upright(0, 14400, -1200, 5200),
        flat(0, 5000, 8000, 14800),
    ];
    same(&rt, rings.as_slice(), sides.as_slice());
    Ok(())
}

#[test]
fn pins_of_an_owned_block(rt: HostRuntime) -> Result<(), Fail> {
    let made = made(&rt, rt.alloc())?;
    let pins = pin_shapes(rt.alloc(), &made.tech, &made.plan, &made.blocks)?;
    let power = Drawn {
        net: 0,
        layer: 1,
        axis: Axis::Y,
        centre: 11400,
        width: 2400,
        from: 400,
        to: 800,
        shape: Shape::Stripe,
    };
    let ground = Drawn {
        net: 1,
        layer: 0,
        axis: Axis::X,
        centre: 600,
        width: 800,
        from: 12200,
        to: 12400,
        shape: Shape::Stripe,
    };
    same(&rt, pins.as_slice(), [power, ground].as_slice());
    Ok(())
}
