//! The shapes of pins.
ghost use Rattle.std.specs.Prelude.{◌≡◌, ◌<◌, pos, ◌+ℤ◌, ◌<ℤ◌, ◌++◌, ◌^◌, IfOk, OnOk, All, length, map};
ghost use Rattle.block_rects.specs.Limits.{size_across, PartKeeps};
ghost use Rattle.geom_rect.specs.Drawn.{half};
ghost use Rattle.geom_rect.specs.Rect.{IsCoordinate, HasCoordinates};
ghost use Rattle.grid_cores.specs.Line.{along, across};
ghost use Rattle.grid_pieces.specs.Limits.{DrawnKeeps, OneAxis};
ghost use Rattle.grid_plan.specs.Keeping.{PlanKeeps};
ghost use Rattle.grid_shapes.specs.inside.Sites.{ShapeKeeps};
ghost use Rattle.placed_blocks.specs.Limits.{BlockKeeps};
ghost use Rattle.via_arrays.specs.Choice.{direction};
ghost use Rattle.pin_shapes.specs.Pins.{net_of, pin_shape, domain_of, block_pins, pin_shapes};

use block_rects::PinPart;
use geom_rect::{Axis, Drawn, Rect, Run, Shape};
use grid_pieces::DomainAt;
use grid_plan::Plan;
use lef_tech::Tech;
use placed_blocks::PlacedBlock;
use std::alloc::{AllocError, Global};

/// The pins of blocks as shapes, block after block: of each part of a pin of a block that a voltage domain owns a stripe along the
/// direction of its layer, of the net of that use of the domain (OpenROAD PDN manual, define_pdn_grid: -macro). Other blocks have none.
///
/// Error: want of memory.
pub fn pin_shapes(
    alloc: Global,
    tech: &Tech,
    plan: &Plan,
    blocks: &[PlacedBlock],
) -> Result<Vec<Drawn>, AllocError>
    requires plan { PlanKeeps tech.now plan.now }
    requires blocks { All (BlockKeeps tech.now) blocks.now }
    ensures shapes { IfOk result (λ shapes. shapes.items ≡ pin_shapes tech.now plan.now.domains blocks.now) }
    ensures keep { IfOk result (λ shapes. All (ShapeKeeps tech.now plan.now) shapes.items) }
    ensures one_axis { IfOk result (λ shapes. OneAxis shapes.items) }
{
    let domains = plan.domains.as_slice();
    let mut shapes = Vec::new(alloc);
    add_blocks(tech, domains, blocks, &mut shapes)?;
    Ok(shapes)
}

fn add_blocks(
    tech: &Tech,
    domains: &[DomainAt],
    blocks: &[PlacedBlock],
    shapes: &mut Vec<Drawn>,
) -> Result<(), AllocError>
    requires { All (BlockKeeps tech.now) blocks.now }
    ensures { OnOk result (shapes.new.items ≡ shapes.old.items ++ pin_shapes tech.now domains.now blocks.now) }
{
    for block in blocks {
        add_block(tech, domains, block, shapes)?;
    }
    Ok(())
}

/// The pins of one block as shapes, as `pin_shapes` gives them. A block that no voltage domain owns has none.
///
/// Error: want of memory.
pub fn block_pins(
    alloc: Global,
    tech: &Tech,
    domains: &[DomainAt],
    block: &PlacedBlock,
) -> Result<Vec<Drawn>, AllocError>
    requires { BlockKeeps tech.now block.now }
    ensures shapes { IfOk result (λ shapes. shapes.items ≡ block_pins tech.now domains.now block.now) }
    ensures keep { IfOk result (λ shapes. All DrawnKeeps shapes.items) }
{
    let mut shapes = Vec::new(alloc);
    add_block(tech, domains, block, &mut shapes)?;
    Ok(shapes)
}

// Adds the pins of a block, if a domain owns it.
fn add_block(
    tech: &Tech,
    domains: &[DomainAt],
    block: &PlacedBlock,
    shapes: &mut Vec<Drawn>,
) -> Result<(), AllocError>
    requires { BlockKeeps tech.now block.now }
    ensures { OnOk result (shapes.new.items ≡ shapes.old.items ++ block_pins tech.now domains.now block.now) }
{
    match domain_of(domains, block.domain) {
        Some(domain) => add_pins(tech, domain, block.pins.as_slice(), shapes),
        None => Ok(()),
    }
}

fn domain_of(domains: &[DomainAt], place: Option<u32>) -> Option<DomainAt>
    ensures { result ≡ domain_of domains.now place }
{
    match place {
        Some(place) => domains.get(place as usize).copied(),
        None => None,
    }
}

fn add_pins(
    tech: &Tech,
    domain: DomainAt,
    parts: &[PinPart],
    shapes: &mut Vec<Drawn>,
) -> Result<(), AllocError>
    requires { All (PartKeeps tech.now) parts.now }
    ensures { OnOk result (shapes.new.items ≡ shapes.old.items ++ map (pin_shape tech.now domain) parts.now) }
{
    for part in parts {
        shapes.push(pin_shape(tech, domain, *part))?;
    }
    Ok(())
}

// A part of a pin as a shape.
fn pin_shape(tech: &Tech, domain: DomainAt, part: PinPart) -> Drawn
    requires { PartKeeps tech.now part }
    ensures { result ≡ pin_shape tech.now domain part }
{
    let axis = direction(tech, part.layer);
    let along = along(axis, part.rect);
    let width = size_across(axis, part.rect);
    Drawn {
        net: net_of(domain, part.power),
        layer: part.layer,
        axis,
        centre: middle(across(axis, part.rect).from, width),
        width,
        from: along.from,
        to: along.to,
        shape: Shape::Stripe,
    }
}

fn net_of(domain: DomainAt, power: bool) -> u32
    ensures { result ≡ net_of domain power }
{
    if power { domain.power } else { domain.ground }
}

fn direction(tech: &Tech, layer: u32) -> Axis
    requires { layer < length tech.now.routing }
    ensures { result ≡ direction tech.now layer }
{
    tech.routing.as_slice()[layer as usize].direction
}

fn size_across(axis: Axis, rect: Rect) -> i64
    requires { HasCoordinates rect }
    ensures { result ≡ size_across axis rect }
{
    match axis {
        Axis::X => rect.y2 - rect.y1,
        Axis::Y => rect.x2 - rect.x1,
    }
}

// The middle of a width from its lower end.
fn middle(low: i64, width: i64) -> i64
    requires low { IsCoordinate low }
    requires wide { pos 0 <ℤ width }
    requires thin { width <ℤ pos (2 ^ 32) }
    ensures { result ≡ low +ℤ half width }
{
    low + width / 2
}

fn along(axis: Axis, rect: Rect) -> Run
    ensures { result ≡ along axis rect }
{
    match axis {
        Axis::X => Run {
            from: rect.x1,
            to: rect.x2,
        },
        Axis::Y => Run {
            from: rect.y1,
            to: rect.y2,
        },
    }
}

fn across(axis: Axis, rect: Rect) -> Run
    ensures { result ≡ across axis rect }
{
    match axis {
        Axis::X => Run {
            from: rect.y1,
            to: rect.y2,
        },
        Axis::Y => Run {
            from: rect.x1,
            to: rect.x2,
        },
    }
}
