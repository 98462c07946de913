//! The rings.
ghost use Rattle.std.specs.Prelude.{◌≡◌, ◌⊎◌, ◌<◌, ◌≤◌, ◌++◌, true, [], if◌then◌else◌, IfOk, IfErr, OnOk, All, Contains};
ghost use Rattle.std.specs.Bool.{MatchBool, nat_eq};
ghost use Rattle.std.specs.List.{flat_map};
ghost use Rattle.geom_rect.specs.Drawn.{IsWidth};
ghost use Rattle.ring_layout.specs.Rings.{FitDrawing};
ghost use Rattle.grid_pieces.specs.declared.error.Counted.TheVariants.{Lines};
ghost use Rattle.grid_pieces.specs.declared.error.DrawError.TheVariants.{TooMany, Want};
ghost use Rattle.grid_plan.specs.Keeping.{PlanKeeps};
ghost use Rattle.grid_shapes.specs.Shapes.{most_lines};
ghost use Rattle.grid_shapes.specs.Site.{grid_of};
ghost use Rattle.grid_shapes.specs.inside.Sites.{PlanStands};
ghost use Rattle.block_stripes.specs.Blocks.{BoxKeeps, boxes_of, ShapesKeep};
ghost use Rattle.block_stripes.specs.Rings.{ring_lines, ring_over, ring_shapes, grid_rings, block_rings, AreFew, RingsAreMany};

use crate::blocks::{BlockBox, MOST_LINES, add_lines, boxes_of, is_over_macros};
use geom_rect::Rect;
use grid_pieces::{Counted, DrawError};
use grid_plan::{Plan, RingAt};
use halo_cuts::GridShape;
use lef_tech::Tech;
use ring_layout::rings;
use std::alloc::{AllocError, Global};

/// The rings of grids over macros (OpenROAD PDN manual, define_pdn_grid: -macro, add_pdn_ring): of each grid in turn its ring around
/// each block that has the grid, with the block's box as the core. `boxes` has the blocks in their order.
///
/// Error: one command draws more than 10^6 lines, around all blocks together; want of memory.
pub fn block_rings(
    alloc: Global,
    tech: &Tech,
    plan: &Plan,
    boxes: &[BlockBox],
) -> Result<Vec<GridShape>, DrawError>
    requires plan { PlanKeeps tech.now plan.now }
    requires boxes { All BoxKeeps boxes.now }
    ensures rings { IfOk result (λ shapes. shapes.items ≡ block_rings plan.now boxes.now) }
    ensures few { IfOk result (λ _. All (AreFew plan.now boxes.now) plan.now.rings) }
    ensures keep { IfOk result (λ shapes. ShapesKeep tech.now plan.now shapes.items) }
    ensures refused { IfErr result (λ error. (error ≡ Want) ⊎ ((error ≡ TooMany Lines) × RingsAreMany plan.now boxes.now)) }
{
    check_rings(alloc, plan, boxes)?;
    let mut shapes = Vec::new(alloc);
    for (place, grid) in plan.grids.as_slice().iter().enumerate() {
        add_grid(alloc, plan, boxes, place, grid.over_macros, &mut shapes)?;
    }
    Ok(shapes)
}

// Refuses rings with too many lines.
fn check_rings(alloc: Global, plan: &Plan, boxes: &[BlockBox]) -> Result<(), DrawError>
    requires plan { PlanStands plan.now }
    ensures few { OnOk result (All (AreFew plan.now boxes.now) plan.now.rings) }
    ensures refused { IfErr result (λ error. (error ≡ Want) ⊎ ((error ≡ TooMany Lines) × RingsAreMany plan.now boxes.now)) }
{
    for ring in plan.rings.as_slice() {
        check_ring(alloc, plan, boxes, ring)?;
    }
    Ok(())
}

// Refuses one with too many.
fn check_ring(
    alloc: Global,
    plan: &Plan,
    boxes: &[BlockBox],
    ring: &RingAt,
) -> Result<(), DrawError>
    requires plan { PlanStands plan.now }
    requires ring { Contains plan.now.rings ring.now }
    ensures few { OnOk result (AreFew plan.now boxes.now ring.now) }
    ensures refused { IfErr result (λ error. (error ≡ Want) ⊎ ((error ≡ TooMany Lines) × RingsAreMany plan.now boxes.now)) }
{
    if is_over_macros(plan, ring.grid) && has_many(alloc, ring, boxes)? {
        return Err(DrawError::TooMany(Counted::Lines));
    }
    Ok(())
}

// Whether a ring has too many lines, around all blocks together.
fn has_many(alloc: Global, ring: &RingAt, boxes: &[BlockBox]) -> Result<bool, AllocError>
    ensures { IfOk result (λ many. MatchBool many (most_lines < ring_lines boxes.now ring.now) (ring_lines boxes.now ring.now ≤ most_lines)) }
{
    let own = boxes_of(alloc, boxes, ring.grid)?;
    let nets = ring.rule.nets.as_slice();
    Ok(MOST_LINES / 4 < nets.len().saturating_mul(own.len()))
}

// Adds the rings of a grid, if it is one over macros.
fn add_grid(
    alloc: Global,
    plan: &Plan,
    boxes: &[BlockBox],
    grid: usize,
    over_macros: bool,
    shapes: &mut Vec<GridShape>,
) -> Result<(), AllocError>
    requires plan { PlanStands plan.now }
    requires boxes { All BoxKeeps boxes.now }
    requires few { All (AreFew plan.now boxes.now) plan.now.rings }
    requires over { (grid_of plan.now grid).over_macros ≡ over_macros }
    ensures { OnOk result (shapes.new.items ≡ shapes.old.items ++ (if over_macros then grid_rings plan.now boxes.now grid else [])) }
{
    if over_macros {
        add_rings(alloc, plan, boxes, grid, shapes)?;
    }
    Ok(())
}

fn add_rings(
    alloc: Global,
    plan: &Plan,
    boxes: &[BlockBox],
    grid: usize,
    shapes: &mut Vec<GridShape>,
) -> Result<(), AllocError>
    requires plan { PlanStands plan.now }
    requires boxes { All BoxKeeps boxes.now }
    requires few { All (AreFew plan.now boxes.now) plan.now.rings }
    requires over { (grid_of plan.now grid).over_macros ≡ true }
    ensures { OnOk result (shapes.new.items ≡ shapes.old.items ++ grid_rings plan.now boxes.now grid) }
{
    for ring in plan.rings.as_slice() {
        add_ring(alloc, boxes, ring, grid, shapes)?;
    }
    Ok(())
}

// Adds a ring around each of its blocks, if it is one of the grid.
fn add_ring(
    alloc: Global,
    boxes: &[BlockBox],
    ring: &RingAt,
    grid: usize,
    shapes: &mut Vec<GridShape>,
) -> Result<(), AllocError>
    requires width_v { IsWidth ring.now.rule.width_v }
    requires width_h { IsWidth ring.now.rule.width_h }
    requires fits { ring.now.grid ≡ grid → All (FitDrawing ring.now.rule) (boxes_of boxes.now ring.now.grid) }
    ensures { OnOk result (shapes.new.items ≡ shapes.old.items ++ (if nat_eq ring.now.grid grid then ring_shapes boxes.now ring.now else [])) }
{
    if ring.grid as usize == grid {
        let own = boxes_of(alloc, boxes, ring.grid)?;
        add_around(alloc, ring, &own, shapes)?;
    }
    Ok(())
}

fn add_around(
    alloc: Global,
    ring: &RingAt,
    cores: &[Rect],
    shapes: &mut Vec<GridShape>,
) -> Result<(), AllocError>
    requires width_v { IsWidth ring.now.rule.width_v }
    requires width_h { IsWidth ring.now.rule.width_h }
    requires fits { All (FitDrawing ring.now.rule) cores.now }
    ensures { OnOk result (shapes.new.items ≡ shapes.old.items ++ flat_map (ring_over ring.now) cores.now) }
{
    for core in cores {
        add_sides(alloc, ring, *core, shapes)?;
    }
    Ok(())
}

// Adds its sides around one.
fn add_sides(
    alloc: Global,
    ring: &RingAt,
    core: Rect,
    shapes: &mut Vec<GridShape>,
) -> Result<(), AllocError>
    requires width_v { IsWidth ring.now.rule.width_v }
    requires width_h { IsWidth ring.now.rule.width_h }
    requires fits { FitDrawing ring.now.rule core }
    ensures { OnOk result (shapes.new.items ≡ shapes.old.items ++ ring_over ring.now core) }
{
    let sides = rings(alloc, &ring.rule, core)?;
    add_lines(shapes, ring.grid, &sides)
}
