ghost use Rattle.std.specs.Prelude.{◌≡◌, ◌<◌, ◌^◌, [], ◌∷◌, All, IfOk, IfErr, OnOk, length};
ghost use Rattle.lef_tech.specs.Limits.{TechKeeps};
ghost use Rattle.def_design.specs.Limits.{DesignKeeps};
ghost use Rattle.def_wiring.specs.Limits.{WiresKeep};
ghost use Rattle.grid_pieces.specs.Limits.{PieceKeeps, StackKeeps};
ghost use Rattle.grid_extract.specs.Extraction.{GridKeeps};
ghost use Rattle.wired_grid.specs.Wired.{IsWiredGrid, IsWiredRefused, ArraysStand, NothingTouches, two_in_order, two_powers, one_domain};
ghost use Rattle.wired_grid.specs.inside.Stages.{IsTouchRefused};

use crate::error::WiredError;
use def_design::Design;
use def_wiring::Wires;
use entry_list::Entries;
use grid_pieces::{DomainAt, Grid, Piece, StackAt, first_touch};
use lef_tech::Tech;
use outside::Name;
use std::alloc::{AllocError, Global};
use wire_limits::check_limits;
use wire_names::{NamedWires, named};
use wire_pieces::wire_pieces;
use wire_stacks::wired_stacks;

/// The grid of wiring that another tool drew over a design, with this technology: the pieces of its segments and the stacks
/// of its vias, in units of the design.
///
/// Errors: why there is none, of several causes the first in the order of the variants; want of memory.
pub fn wired_grid(
    alloc: Global,
    tech: &Tech,
    design: &Design,
    wires: &Wires,
) -> Result<Grid, WiredError>
    requires tech { TechKeeps tech.now }
    requires design { DesignKeeps design.now }
    requires wires { WiresKeep wires.now }
    ensures grid { IfOk result (IsWiredGrid tech.now design.now wires.now) }
    ensures refused { IfErr result (IsWiredRefused tech.now design.now wires.now) }
    ensures keep { IfOk result (λ grid. GridKeeps grid tech.now) }
    ensures arrays { IfOk result (λ grid. All (ArraysStand tech.now) grid.stacks) }
{
    let named = named(alloc, tech, wires)?;
    check_limits(alloc, tech, wires, &named)?;
    let pieces = wire_pieces(alloc, named.shapes.as_slice())?;
    let stacks = wired_stacks(alloc, tech, &named, &pieces)?;
    check_touch(alloc, &pieces, &stacks)?;
    count(pieces.len(), stacks.len())?;
    let grid = grid_with(alloc, design.units, named, pieces, stacks)?;
    Ok(grid)
}

// Refuses metal that touches.
fn check_touch(alloc: Global, pieces: &[Piece], stacks: &[StackAt]) -> Result<(), WiredError>
    requires pieces { All PieceKeeps pieces.now }
    requires stacks { All StackKeeps stacks.now }
    ensures apart { OnOk result (NothingTouches pieces.now stacks.now) }
    ensures refused { IfErr result (IsTouchRefused pieces.now stacks.now) }
{
    match first_touch(alloc, pieces, stacks)? {
        Some(touching) => Err(WiredError::Touch(touching)),
        None => Ok(()),
    }
}

// Pieces and stacks have numbers of 32 bits. More of them are answered as want of memory; no wiring within its limits has
// so many.
fn count(pieces: usize, stacks: usize) -> Result<(), AllocError>
    ensures pieces { OnOk result (pieces < 2 ^ 32) }
    ensures stacks { OnOk result (stacks < 2 ^ 32) }
{
    if pieces < 4_294_967_296 && stacks < 4_294_967_296 {
        return Ok(());
    }
    Err(AllocError)
}

// The grid of two nets with these pieces and stacks.
fn grid_with(
    alloc: Global,
    units: u32,
    named: NamedWires,
    pieces: Vec<Piece>,
    stacks: Vec<StackAt>,
) -> Result<Grid, AllocError>
    ensures units { IfOk result (λ grid. grid.units ≡ units) }
    ensures nets { IfOk result (λ grid. grid.nets ≡ two_in_order named.power named.ground named.power_first) }
    ensures power { IfOk result (λ grid. grid.power ≡ two_powers named.power_first) }
    ensures domains { IfOk result (λ grid. grid.domains ≡ one_domain named.power_first ∷ []) }
    ensures pieces { IfOk result (λ grid. grid.pieces ≡ pieces.items) }
    ensures stacks { IfOk result (λ grid. grid.stacks ≡ stacks.items) }
{
    let NamedWires {
        power,
        ground,
        power_first,
        ..
    } = named;
    Ok(Grid {
        units,
        nets: Entries::new(nets(alloc, power, ground, power_first)?),
        power: Entries::new(powers(alloc, power_first)?),
        domains: Entries::new(domains(alloc, power_first)?),
        pieces: Entries::new(pieces),
        stacks: Entries::new(stacks),
    })
}

// The names of the two nets, in byte order.
fn nets(
    alloc: Global,
    power: Name,
    ground: Name,
    power_first: bool,
) -> Result<Vec<Name>, AllocError>
    ensures { IfOk result (λ nets. nets.items ≡ two_in_order power ground power_first) }
{
    let mut nets = Vec::new(alloc);
    if power_first {
        nets.push(power)?;
        nets.push(ground)?;
    } else {
        nets.push(ground)?;
        nets.push(power)?;
    }
    Ok(nets)
}

// For each net whether it is the power net.
fn powers(alloc: Global, power_first: bool) -> Result<Vec<bool>, AllocError>
    ensures { IfOk result (λ powers. powers.items ≡ two_powers power_first) }
{
    let mut powers = Vec::new(alloc);
    powers.push(power_first)?;
    powers.push(!power_first)?;
    Ok(powers)
}

// One domain over both nets.
fn domains(alloc: Global, power_first: bool) -> Result<Vec<DomainAt>, AllocError>
    ensures { IfOk result (λ domains. domains.items ≡ one_domain power_first ∷ []) }
{
    let mut domains = Vec::new(alloc);
    domains.push(domain(power_first))?;
    Ok(domains)
}

fn domain(power_first: bool) -> DomainAt
    ensures { result ≡ one_domain power_first }
{
    if power_first {
        return DomainAt {
            region: None,
            ground: 1,
            power: 0,
        };
    }
    DomainAt {
        region: None,
        ground: 0,
        power: 1,
    }
}
