ghost use Rattle.std.specs.Prelude.{◌<◌, ◌^◌, All, IfOk, MatchResult, length};
ghost use Rattle.name_table.specs.Numbering.{AreDistinct};
ghost use Rattle.via_arrays.specs.Lengths.{IsUnits};
ghost use Rattle.bias_file.specs.Limits.{BiasKeeps};
ghost use Rattle.grid_pieces.specs.Limits.{PieceKeeps};
ghost use Rattle.grid_taps.specs.Naming.{IsFirst, NoneIs};
ghost use Rattle.grid_taps.specs.Pads.{ArePads};
ghost use Rattle.grid_taps.specs.Refusals.{PadsStand, ArePadsRefused, LacksSupply, IsPadOff};
ghost use Rattle.grid_taps.specs.inside.Standing.{AreNetsOf};

use crate::line::{lesser, without_net};
use crate::named::table_of;
use crate::on_piece::{Nets, index_of, stands_on};
use crate::supply::{first_bare, volts_of};
use bias_file::Bias;
use grid_network::{ExtractError, PadOn};
use grid_pieces::Grid;
use lef_tech::Tech;
use std::alloc::{AllocError, Global};

/// The pads of the bias file on the pieces of a drawn grid, in the order of their lines: a pad stands on each piece of
/// its net and layer whose closed rectangle has its place, which in a grid in which nothing touches is one.
///
/// It is refused where a supply, droplimit or pad line names no net or no routing layer, where a net with a piece has
/// no supply line, and where a pad stands on no piece, in this order. Of one kind the earliest line or net is named.
pub fn pads(
    alloc: Global,
    grid: &Grid,
    tech: &Tech,
    bias: &Bias,
) -> Result<Vec<PadOn>, ExtractError>
    requires units { IsUnits grid.now.units }
    requires nets { AreDistinct grid.now.nets }
    requires pieces { All PieceKeeps grid.now.pieces }
    requires few_pieces { length grid.now.pieces < 2 ^ 32 }
    requires bias { BiasKeeps bias.now }
    ensures { MatchResult result (λ pads. PadsStand grid.now tech.now bias.now pads.items)
        (ArePadsRefused grid.now tech.now bias.now) }
{
    if let Some(line) = without_net(alloc, grid, tech, bias)? {
        return Err(ExtractError::UnknownName(line));
    }
    let mut nets = nets_of(alloc, grid, bias)?;
    if let Some(net) = first_bare(grid, bias, &nets.volts) {
        return Err(ExtractError::NoSupply(net));
    }
    let stand = stand_all(alloc, grid, tech, bias, &mut nets)?;
    match stand.off {
        Some(line) => Err(ExtractError::PadOff(line)),
        None => Ok(stand.pads),
    }
}

fn nets_of<'a>(alloc: Global, grid: &'a Grid, bias: &Bias) -> Result<Nets<'a>, AllocError>
    requires nets { AreDistinct grid.now.nets }
    requires pieces { All PieceKeeps grid.now.pieces }
    requires few_pieces { length grid.now.pieces < 2 ^ 32 }
    requires bias { BiasKeeps bias.now }
    ensures { IfOk result (AreNetsOf grid.now bias.now) }
{
    let names = table_of(alloc, grid.nets.as_slice())?;
    let volts = volts_of(alloc, grid.nets.as_slice(), bias.supplies.as_slice())?;
    let index = index_of(alloc, grid.pieces.as_slice())?;
    Ok(Nets {
        names,
        volts,
        index,
    })
}

// Pads on pieces, and the first line whose pad stands on none.
#[derive(Drop)]
struct Stand {
    pads: Vec<PadOn>,
    off: Option<u64>,
}

fn stand_all<'a>(
    alloc: Global,
    grid: &Grid,
    tech: &Tech,
    bias: &'a Bias,
    nets: &mut Nets<'a>,
) -> Result<Stand, AllocError>
    requires units { IsUnits grid.now.units }
    requires bias { BiasKeeps bias.now }
    requires nets { AreNetsOf grid.now bias.now nets.old }
    requires supplied { NoneIs (LacksSupply grid.now bias.now) }
    ensures pads { IfOk result (λ stand. ArePads grid.now tech.now bias.now stand.pads.items) }
    ensures off { IfOk result (λ stand. IsFirst (IsPadOff grid.now tech.now bias.now) stand.off) }
{
    let mut pads = Vec::new(alloc);
    let mut off = None;
    for pad in bias.pads.as_slice() {
        let mut on = stands_on(alloc, grid, tech, bias, nets, pad)?;
        if on.is_empty() {
            off = lesser(off, Some(pad.line));
        }
        pads.append(&mut on)?;
    }
    Ok(Stand { pads, off })
}
