//! The taps of a block.
ghost use Rattle.std.specs.Prelude.{◌≡◌, ◌<◌, ◌++◌, IfOk, OnOk, All, length};
ghost use Rattle.grid_pieces.specs.Limits.{PieceKeeps};
ghost use Rattle.pin_taps.specs.Keeping.{MacroGridKeeps};
ghost use Rattle.pin_taps.specs.Taps.{middle, tap_on, shared_by, given_back};
ghost use Rattle.pin_taps.specs.inside.Tables.{AreFeeding};
ghost use Rattle.pin_taps.specs.inside.Blocks.{AddsBlock};
ghost use Rattle.grid_taps.specs.inside.Tapping.{AmpsRange};

use crate::feeding::feeding;
use grid_network::Tap;
use grid_pieces::{DomainAt, Piece};
use load_shares::{Share, shares};
use macro_grid::MacroGrid;
use rect_index::RectIndex;
use std::alloc::{AllocError, Global};

// Adds the taps of the block that a component is, with its load, and tells whether some piece feeds each net of its domain.
pub(crate) fn add_block(
    alloc: Global,
    drawn: &MacroGrid,
    index: &RectIndex<u32>,
    number: u32,
    domain: DomainAt,
    load: Share,
    taps: &mut Vec<Tap>,
) -> Result<bool, AllocError>
    requires drawn { MacroGridKeeps drawn.now }
    requires index { AreFeeding drawn.now index.now }
    requires load { AmpsRange load.low load.high }
    ensures { IfOk result (AddsBlock drawn.now number domain load taps.old.items taps.new.items) }
{
    let pieces = drawn.grid.pieces.as_slice();
    let power = feeding(alloc, drawn, index, number, domain.power)?;
    let ground = feeding(alloc, drawn, index, number, domain.ground)?;
    if power.is_empty() || ground.is_empty() {
        return Ok(false);
    }
    share(alloc, pieces, &power, load, taps)?;
    share(alloc, pieces, &ground, given_back(load), taps)?;
    Ok(true)
}

// What a load gives back.
fn given_back(load: Share) -> Share
    requires { AmpsRange load.low load.high }
    ensures { result ≡ given_back load }
{
    Share {
        low: -load.high,
        high: -load.low,
    }
}

// Adds the taps of a load that the pieces with these numbers share.
fn share(
    alloc: Global,
    pieces: &[Piece],
    numbers: &[u32],
    load: Share,
    taps: &mut Vec<Tap>,
) -> Result<(), AllocError>
    requires some { 0 < length numbers.now }
    requires keep { All PieceKeeps pieces.now }
    requires within { All (λ number. number < length pieces.now) numbers.now }
    ensures { OnOk result (taps.new.items ≡ taps.old.items ++ shared_by pieces.now numbers.now load) }
{
    let Ok(count) = u32::try_from(numbers.len()) else {
        return Err(AllocError);
    };
    let shares = shares(alloc, load, count)?;
    for (place, number) in numbers.iter().enumerate() {
        taps.push(tap_on(pieces, *number, shares[place]))?;
    }
    Ok(())
}

// A tap of a share at the middle of the piece with this number.
fn tap_on(pieces: &[Piece], number: u32, share: Share) -> Tap
    requires keep { All PieceKeeps pieces.now }
    requires within { number < length pieces.now }
    ensures { result ≡ tap_on pieces.now number share }
{
    Tap {
        piece: number,
        along: middle(&pieces[number as usize]),
        low: share.low,
        high: share.high,
    }
}

// The middle of a piece, rounded down.
fn middle(piece: &Piece) -> i64
    requires { PieceKeeps piece.now }
    ensures { result ≡ middle piece.now }
{
    (piece.from + piece.to).div_euclid(2)
}
