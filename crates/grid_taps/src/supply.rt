ghost use Rattle.std.specs.Prelude.{◌≡◌, ◌↔◌, ℕ, IfOk, IsTrue, MatchOption, Some, List};
ghost use Rattle.name_table.specs.Numbering.{AreDistinct};
ghost use Rattle.grid_taps.specs.Naming.{IsFirst};
ghost use Rattle.grid_taps.specs.Refusals.{LacksSupply, HasNoSupply};
ghost use Rattle.grid_taps.specs.inside.Steps.{lesser, HasVolts, AreVolts, IsVolts, supply_names};

use crate::named::{place_of, table_of};
use bias_file::{Bias, Supply};
use grid_pieces::Grid;
use name_table::NameTable;
use outside::Name;
use std::alloc::{AllocError, Global};

// The potential of each net, none where it has no supply line.
pub(crate) fn volts_of(
    alloc: Global,
    nets: &[Name],
    supplies: &[Supply],
) -> Result<Vec<Option<i128>>, AllocError>
    requires { AreDistinct (supply_names supplies.now) }
    ensures { IfOk result (λ volts. AreVolts supplies.now nets.now volts.items) }
{
    let mut table = table_of(alloc, supplies)?;
    let mut volts = Vec::with_capacity(alloc, nets.len())?;
    for net in nets {
        volts.push(supply_of(&mut table, supplies, net.bytes()))?;
    }
    Ok(volts)
}

fn supply_of<'a>(table: &mut NameTable<'a>, supplies: &[Supply], net: &'a [u8]) -> Option<i128>
    requires { table.old ≡ supply_names supplies.now }
    ensures volts { HasVolts supplies.now net.now result }
    ensures same { table.new ≡ table.old }
{
    let place = place_of(table, net)?;
    Some(supplies[place as usize].volts)
}

// The potential of the net with this number.
pub(crate) fn volts_at(volts: &[Option<i128>], net: u32) -> Option<i128>
    ensures { IsVolts volts.now net result }
{
    *volts.get(net as usize)?
}

// The least net that has a piece and no supply line.
pub(crate) fn first_bare(grid: &Grid, bias: &Bias, volts: &[Option<i128>]) -> Option<u32>
    requires { AreVolts bias.now.supplies grid.now.nets volts.now }
    ensures { IsFirst (LacksSupply grid.now bias.now) result }
{
    let mut first = None;
    for piece in grid.pieces.as_slice() {
        if is_bare(grid, bias, volts, piece.net) {
            first = lesser_net(first, piece.net);
        }
    }
    first
}

fn is_bare(grid: &Grid, bias: &Bias, volts: &[Option<i128>], net: u32) -> bool
    requires { AreVolts bias.now.supplies grid.now.nets volts.now }
    ensures { IsTrue result ↔ HasNoSupply grid.now bias.now net }
{
    volts_at(volts, net).is_none()
}

fn lesser_net(first: Option<u32>, net: u32) -> Option<u32>
    ensures { result ≡ lesser first (Some net) }
{
    match first {
        None => Some(net),
        Some(first) => Some(first.min(net)),
    }
}
