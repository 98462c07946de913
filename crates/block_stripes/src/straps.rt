//! The straps.
ghost use Rattle.std.specs.Prelude.{◌≡◌, ◌⊎◌, ◌≤◌, ◌-◌, pos, ◌<ℤ◌, IfOk, IfErr, OnOk, All, Contains, length};
ghost use Rattle.std.specs.Bool.{MatchBool};
ghost use Rattle.geom_rect.specs.Drawn.{IsWidth};
ghost use Rattle.strap_layout.specs.Lines.{DrawsMore};
ghost use Rattle.grid_cores.specs.Line.{along};
ghost use Rattle.grid_pieces.specs.declared.error.Counted.TheVariants.{Lines};
ghost use Rattle.grid_pieces.specs.declared.error.DrawError.TheVariants.{TooMany, Want};
ghost use Rattle.grid_plan.specs.Keeping.{PlanKeeps};
ghost use Rattle.grid_shapes.specs.Shapes.{most_lines};
ghost use Rattle.grid_shapes.specs.Site.{grid_of};
ghost use Rattle.grid_shapes.specs.inside.Sites.{PlanStands};
ghost use Rattle.block_stripes.specs.Blocks.{BoxKeeps, boxes_of, ShapesKeep};
ghost use Rattle.block_stripes.specs.Straps.{box_reaches, AreStrapsOver, AreBlockStraps, DrawsMoreOver, StrapsAreMany};
ghost use Rattle.block_stripes.specs.inside.Adding.{AddsBox, AddsStraps};

use crate::blocks::{BlockBox, MOST_LINES, add_lines, boxes_of, is_over_macros};
use geom_rect::{Axis, Rect, Run};
use grid_pieces::{Counted, DrawError};
use grid_plan::{Plan, Straps};
use halo_cuts::GridShape;
use lef_tech::Tech;
use std::alloc::{AllocError, Global};
use strap_layout::straps_up_to;

/// The straps of grids over macros (OpenROAD PDN manual, define_pdn_grid: -macro, add_pdn_stripe): of each command in turn its lines
/// over each block that has its grid, with the block's box as the core, and along the whole box. `boxes` has the blocks in their order.
///
/// Error: one command draws more than 10^6 lines, over all blocks together; want of memory.
pub fn block_straps(
    alloc: Global,
    tech: &Tech,
    plan: &Plan,
    boxes: &[BlockBox],
) -> Result<Vec<GridShape>, DrawError>
    requires plan { PlanKeeps tech.now plan.now }
    requires boxes { All BoxKeeps boxes.now }
    ensures straps { IfOk result (λ shapes. AreBlockStraps plan.now boxes.now shapes.items) }
    ensures keep { IfOk result (λ shapes. ShapesKeep tech.now plan.now shapes.items) }
    ensures refused { IfErr result (λ error. (error ≡ Want) ⊎ ((error ≡ TooMany Lines) × StrapsAreMany plan.now boxes.now)) }
{
    let mut shapes = Vec::new(alloc);
    for straps in plan.straps.as_slice() {
        add_command(alloc, plan, straps, boxes, &mut shapes)?;
    }
    Ok(shapes)
}

// Adds the straps of a command, if its grid is one over macros.
fn add_command(
    alloc: Global,
    plan: &Plan,
    straps: &Straps,
    boxes: &[BlockBox],
    shapes: &mut Vec<GridShape>,
) -> Result<(), DrawError>
    requires plan { PlanStands plan.now }
    requires straps { Contains plan.now.straps straps.now }
    ensures added { OnOk result (MatchBool (grid_of plan.now straps.now.grid).over_macros
        (AddsStraps straps.now (boxes_of boxes.now straps.now.grid) shapes.old.items shapes.new.items)
        (shapes.new.items ≡ shapes.old.items)) }
    ensures refused { IfErr result (λ error. (error ≡ Want) ⊎ ((error ≡ TooMany Lines) × StrapsAreMany plan.now boxes.now)) }
{
    if is_over_macros(plan, straps.grid) {
        add_straps(alloc, straps, boxes, shapes)?;
    }
    Ok(())
}

// Adds the straps of a command.
fn add_straps(
    alloc: Global,
    straps: &Straps,
    boxes: &[BlockBox],
    shapes: &mut Vec<GridShape>,
) -> Result<(), DrawError>
    requires width { IsWidth straps.now.rule.width }
    requires pitch { pos 0 <ℤ straps.now.rule.pitch }
    ensures added { OnOk result (AddsStraps straps.now (boxes_of boxes.now straps.now.grid) shapes.old.items shapes.new.items) }
    ensures refused { IfErr result (λ error. (error ≡ Want) ⊎ ((error ≡ TooMany Lines) × DrawsMoreOver most_lines straps.now.rule (boxes_of boxes.now straps.now.grid))) }
{
    let own = boxes_of(alloc, boxes, straps.grid)?;
    let lines = straps_over(alloc, straps, &own)?;
    shapes.extend_from_slice(&lines)?;
    Ok(())
}

// The straps of a command over cores.
fn straps_over(alloc: Global, straps: &Straps, cores: &[Rect]) -> Result<Vec<GridShape>, DrawError>
    requires width { IsWidth straps.now.rule.width }
    requires pitch { pos 0 <ℤ straps.now.rule.pitch }
    ensures straps { IfOk result (λ shapes. AreStrapsOver straps.now cores.now shapes.items) }
    ensures refused { IfErr result (λ error. (error ≡ Want) ⊎ ((error ≡ TooMany Lines) × DrawsMoreOver most_lines straps.now.rule cores.now)) }
{
    let mut shapes = Vec::new(alloc);
    for core in cores {
        add_box(alloc, straps, *core, &mut shapes)?;
    }
    Ok(shapes)
}

// Adds its straps over one more core.
fn add_box(
    alloc: Global,
    straps: &Straps,
    core: Rect,
    shapes: &mut Vec<GridShape>,
) -> Result<(), DrawError>
    requires width { IsWidth straps.now.rule.width }
    requires pitch { pos 0 <ℤ straps.now.rule.pitch }
    requires few { length shapes.old.items ≤ most_lines }
    ensures added { OnOk result (AddsBox straps.now core shapes.old.items shapes.new.items) }
    ensures few { OnOk result (length shapes.new.items ≤ most_lines) }
    ensures refused { IfErr result (λ error. (error ≡ Want) ⊎ ((error ≡ TooMany Lines) × DrawsMore (most_lines - length shapes.old.items) straps.now.rule core)) }
{
    let reaches = box_reaches(alloc, straps, core)?;
    let most = MOST_LINES - shapes.len();
    match straps_up_to(alloc, &straps.rule, core, &reaches, most)? {
        Some(lines) => add_lines(shapes, straps.grid, &lines)?,
        None => return Err(DrawError::TooMany(Counted::Lines)),
    }
    Ok(())
}

// The reach of each net of straps over a box.
fn box_reaches(alloc: Global, straps: &Straps, core: Rect) -> Result<Vec<Run>, AllocError>
    ensures { IfOk result (λ reaches. reaches.items ≡ box_reaches straps.now core) }
{
    let run = along(straps.rule.axis, core);
    let nets = straps.rule.nets.as_slice();
    nets.iter().map(|_net| run).collect(alloc)
}

fn along(axis: Axis, rect: Rect) -> Run
    ensures { result ≡ along axis rect }
{
    match axis {
        Axis::X => Run {
            from: rect.x1,
            to: rect.x2,
        },
        Axis::Y => Run {
            from: rect.y1,
            to: rect.y2,
        },
    }
}
