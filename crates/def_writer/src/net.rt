//! The section of the special nets.
ghost use Rattle.std.specs.Prelude.{◌≡◌, ◌++◌, ◌==◌, ◌<◌, OnOk, All, length, flat_map, take_while};
ghost use Rattle.std.specs.List.{enumerate_from};
ghost use Rattle.grid_pieces.specs.declared.piece.Piece.{Piece};
ghost use Rattle.grid_pieces.specs.declared.piece.StackAt.{StackAt as Stack};
ghost use Rattle.def_writer.specs.Limits.{GridFits, StackFits};
ghost use Rattle.def_writer.specs.Line.{line_of, text_of};
ghost use Rattle.def_writer.specs.Wiring.{net_lines, net_of_grid, use_word};
ghost use Rattle.def_writer.specs.Written.{special_net_lines};

use crate::line::append_line;
use crate::wiring::append_wiring;
use grid_pieces::{Grid, Piece as Metal, StackAt};
use itoa::Buffer;
use lef_tech::Tech;
use std::alloc::AllocError;

// The section of the special nets.
pub(crate) fn append_nets(out: &mut Vec<u8>, tech: &Tech, grid: &Grid) -> Result<(), AllocError>
    requires { GridFits tech.now grid.now }
    ensures { OnOk result (out.new.items ≡ out.old.items ++ text_of (special_net_lines tech.now grid.now)) }
{
    let mut count = Buffer::new();
    let nets = count.format(grid.nets.as_slice().len()).as_bytes();
    append_line(out, &[b"SPECIALNETS", nets, b";"])?;
    append_all(out, tech, grid)?;
    append_line(out, &[b"END", b"SPECIALNETS"])?;
    Ok(())
}

// The lines of all nets.
fn append_all(out: &mut Vec<u8>, tech: &Tech, grid: &Grid) -> Result<(), AllocError>
    requires { GridFits tech.now grid.now }
    ensures { OnOk result (out.new.items
        ≡ out.old.items ++ text_of (flat_map (net_of_grid tech.now grid.now) (enumerate_from 0 grid.now.nets))) }
{
    let mut pieces = grid.pieces.as_slice();
    let mut stacks = grid.stacks.as_slice();
    for (net, name) in grid.nets.as_slice().iter().enumerate() {
        let (metal, later_metal) = pieces.split_at(pieces_at_front(pieces, net));
        let (arrays, later_arrays) = stacks.split_at(stacks_at_front(stacks, net));
        let power = grid.power.as_slice()[net];
        append_net(out, tech, name.bytes(), power, metal, arrays)?;
        pieces = later_metal;
        stacks = later_arrays;
    }
    Ok(())
}

// How many pieces at the front are of the net.
fn pieces_at_front(pieces: &[Metal], net: usize) -> usize
    ensures { result ≡ length (take_while (λ (p : Piece). p.net == net) pieces.now) }
{
    pieces
        .iter()
        .take_while(|piece| piece.net as usize == net)
        .count()
}

// How many stacks at the front are of the net.
fn stacks_at_front(stacks: &[StackAt], net: usize) -> usize
    ensures { result ≡ length (take_while (λ (s : Stack). s.net == net) stacks.now) }
{
    stacks
        .iter()
        .take_while(|at| at.net as usize == net)
        .count()
}

// The lines of a net.
fn append_net(
    out: &mut Vec<u8>,
    tech: &Tech,
    name: &[u8],
    power: bool,
    pieces: &[Metal],
    stacks: &[StackAt],
) -> Result<(), AllocError>
    requires layers { All (λ (p : Piece). p.layer < length tech.now.routing) pieces.now }
    requires arrays { All (StackFits tech.now) stacks.now }
    ensures { OnOk result (out.new.items
        ≡ out.old.items ++ text_of (net_lines tech.now name.now power pieces.now stacks.now)) }
{
    append_line(out, &[b"-", name, b"+", b"USE", use_word(power)])?;
    append_wiring(out, tech, pieces, stacks)?;
    append_line(out, &[b";"])
}

// The word after USE.
fn use_word<'a>(power: bool) -> &'a [u8]
    ensures { result.now ≡ use_word power }
{
    if power { b"POWER" } else { b"GROUND" }
}
