//! The parts of pins.
ghost use Rattle.std.specs.Prelude.{◌≡◌, ◌++◌, IfOk, OnOk, All};
ghost use Rattle.std.specs.Option.{option_to_list};
ghost use Rattle.geom_rect.specs.Rect.{IsInOrder, HasCoordinates};
ghost use Rattle.macro_blocks.specs.Limits.{MacroKeeps, PinKeeps, RectKeeps};
ghost use Rattle.macro_turns.specs.Limits.{PlacedKeeps};
ghost use Rattle.via_arrays.specs.Choice.{direction};
ghost use Rattle.via_arrays.specs.Lengths.{IsUnits};
ghost use Rattle.block_rects.specs.Layers.{HasNamesOf};
ghost use Rattle.block_rects.specs.Limits.{PartKeeps};
ghost use Rattle.block_rects.specs.Placed.{evened, part_with, part_of, parts_of_pin, parts_of};

use crate::even::{evened, has_area};
use crate::names::{LayerNames, place_of_layer};
use crate::part::PinPart;
use crate::units::placed_rect;
use geom_rect::{Axis, Rect};
use lef_tech::Tech;
use macro_blocks::{BlockMacro, BlockPin, BlockRect};
use macro_turns::Placed;
use std::alloc::{AllocError, Global};

/// The parts of the pins of a block in their place, in the order of its pins and of their rectangles.
///
/// Error: want of memory.
pub fn parts_of<'a>(
    alloc: Global,
    tech: &Tech,
    names: &LayerNames<'a>,
    units: u32,
    placed: Placed,
    cell: &'a BlockMacro,
) -> Result<Vec<PinPart>, AllocError>
    requires names { HasNamesOf tech.now names.now }
    requires units { IsUnits units }
    requires placed { PlacedKeeps placed }
    requires cell { MacroKeeps cell.now }
    ensures parts { IfOk result (λ parts. parts.items ≡ parts_of tech.now units placed cell.now) }
    ensures keep { IfOk result (λ parts. All (PartKeeps tech.now) parts.items) }
{
    let parts = all_parts(alloc, tech, names, units, placed, cell)?;
    Ok(parts)
}

#[tactic(auto, using(crate::proofs::Steps::more_pins))]
fn all_parts<'a>(
    alloc: Global,
    tech: &Tech,
    names: &LayerNames<'a>,
    units: u32,
    placed: Placed,
    cell: &'a BlockMacro,
) -> Result<Vec<PinPart>, AllocError>
    requires names { HasNamesOf tech.now names.now }
    requires units { IsUnits units }
    requires placed { PlacedKeeps placed }
    requires cell { MacroKeeps cell.now }
    ensures { IfOk result (λ parts. parts.items ≡ parts_of tech.now units placed cell.now) }
{
    let mut parts = Vec::new(alloc);
    for pin in cell.pins.as_slice() {
        let mut more = parts_of_pin(alloc, tech, names, units, placed, pin)?;
        parts.append(&mut more)?;
    }
    Ok(parts)
}

#[tactic(auto, using(crate::proofs::Steps::kept_more))]
fn parts_of_pin<'a>(
    alloc: Global,
    tech: &Tech,
    names: &LayerNames<'a>,
    units: u32,
    placed: Placed,
    pin: &'a BlockPin,
) -> Result<Vec<PinPart>, AllocError>
    requires names { HasNamesOf tech.now names.now }
    requires units { IsUnits units }
    requires placed { PlacedKeeps placed }
    requires pin { PinKeeps pin.now }
    ensures { IfOk result (λ parts. parts.items ≡ parts_of_pin tech.now units placed pin.now) }
{
    let mut parts = Vec::new(alloc);
    for rect in pin.rects.as_slice() {
        let part = part_of(tech, names, units, placed, pin.power, rect)?;
        push_some(&mut parts, part)?;
    }
    Ok(parts)
}

fn push_some(parts: &mut Vec<PinPart>, part: Option<PinPart>) -> Result<(), AllocError>
    ensures { OnOk result (parts.new.items ≡ parts.old.items ++ option_to_list part) }
{
    if let Some(part) = part {
        parts.push(part)?;
    }
    Ok(())
}

// The part of a rectangle of a pin.
fn part_of<'a>(
    tech: &Tech,
    names: &LayerNames<'a>,
    units: u32,
    placed: Placed,
    power: bool,
    rect: &'a BlockRect,
) -> Result<Option<PinPart>, AllocError>
    requires names { HasNamesOf tech.now names.now }
    requires units { IsUnits units }
    requires placed { PlacedKeeps placed }
    requires rect { RectKeeps rect.now }
    ensures { IfOk result (λ part. part ≡ part_of tech.now units placed power rect.now) }
{
    let Some(layer) = place_of_layer(tech, names, &rect.layer)? else {
        return Ok(None);
    };
    Ok(part_on(tech, power, layer, placed_rect(units, placed, rect)))
}

// The part of a pin on a routing layer, of a rectangle that is not evened yet.
fn part_on(tech: &Tech, power: bool, layer: u32, rect: Rect) -> Option<PinPart>
    requires in_order { IsInOrder rect }
    requires coordinates { HasCoordinates rect }
    ensures { result ≡ part_with power layer (evened (direction tech.now layer) rect) }
{
    let rect = evened(direction(tech, layer), rect);
    if has_area(rect) {
        Some(PinPart { layer, power, rect })
    } else {
        None
    }
}

fn direction(tech: &Tech, layer: u32) -> Axis
    ensures { result ≡ direction tech.now layer }
{
    match tech.routing.as_slice().get(layer as usize) {
        Some(layer) => layer.direction,
        None => Axis::X,
    }
}
