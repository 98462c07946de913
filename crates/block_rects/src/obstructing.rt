//! The obstructions.
ghost use Rattle.std.specs.Prelude.{◌≡◌, ◌++◌, IfOk, OnOk, All};
ghost use Rattle.std.specs.Option.{option_to_list};
ghost use Rattle.macro_blocks.specs.Limits.{MacroKeeps, RectKeeps};
ghost use Rattle.macro_turns.specs.Limits.{PlacedKeeps};
ghost use Rattle.via_arrays.specs.Lengths.{IsUnits};
ghost use Rattle.block_rects.specs.Layers.{HasNamesOf};
ghost use Rattle.block_rects.specs.Limits.{ObstructionKeeps};
ghost use Rattle.block_rects.specs.Placed.{obstruction_of, obstructions_of};

use crate::names::{LayerNames, layer_of};
use crate::part::Obstruction;
use crate::units::placed_rect;
use lef_tech::Tech;
use macro_blocks::{BlockMacro, BlockRect};
use macro_turns::Placed;
use std::alloc::{AllocError, Global};

/// The obstructions of a block in their place, in their order.
///
/// Error: want of memory.
pub fn obstructions_of<'a>(
    alloc: Global,
    tech: &Tech,
    names: &LayerNames<'a>,
    units: u32,
    placed: Placed,
    cell: &'a BlockMacro,
) -> Result<Vec<Obstruction>, AllocError>
    requires names { HasNamesOf tech.now names.now }
    requires units { IsUnits units }
    requires placed { PlacedKeeps placed }
    requires cell { MacroKeeps cell.now }
    ensures obstructions { IfOk result (λ all. all.items ≡ obstructions_of tech.now units placed cell.now) }
    ensures keep { IfOk result (λ all. All ObstructionKeeps all.items) }
{
    let all = all_obstructions(alloc, tech, names, units, placed, cell)?;
    Ok(all)
}

#[tactic(auto, using(crate::proofs::Steps::kept_more))]
fn all_obstructions<'a>(
    alloc: Global,
    tech: &Tech,
    names: &LayerNames<'a>,
    units: u32,
    placed: Placed,
    cell: &'a BlockMacro,
) -> Result<Vec<Obstruction>, AllocError>
    requires names { HasNamesOf tech.now names.now }
    requires units { IsUnits units }
    requires placed { PlacedKeeps placed }
    requires cell { MacroKeeps cell.now }
    ensures { IfOk result (λ all. all.items ≡ obstructions_of tech.now units placed cell.now) }
{
    let mut all = Vec::new(alloc);
    for rect in cell.obstructions.as_slice() {
        let obstruction = obstruction_of(tech, names, units, placed, rect)?;
        push_some(&mut all, obstruction)?;
    }
    Ok(all)
}

fn push_some(all: &mut Vec<Obstruction>, one: Option<Obstruction>) -> Result<(), AllocError>
    ensures { OnOk result (all.new.items ≡ all.old.items ++ option_to_list one) }
{
    if let Some(one) = one {
        all.push(one)?;
    }
    Ok(())
}

fn obstruction_of<'a>(
    tech: &Tech,
    names: &LayerNames<'a>,
    units: u32,
    placed: Placed,
    rect: &'a BlockRect,
) -> Result<Option<Obstruction>, AllocError>
    requires names { HasNamesOf tech.now names.now }
    requires units { IsUnits units }
    requires placed { PlacedKeeps placed }
    requires rect { RectKeeps rect.now }
    ensures { IfOk result (λ one. one ≡ obstruction_of tech.now units placed rect.now) }
{
    match layer_of(tech, names, &rect.layer)? {
        Some(layer) => Ok(Some(Obstruction {
            layer,
            rect: placed_rect(units, placed, rect),
        })),
        None => Ok(None),
    }
}
