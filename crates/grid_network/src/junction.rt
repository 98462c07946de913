//! The junctions along the pieces.
ghost use Rattle.std.specs.Prelude.{◌≡◌, true, false, pos, ◌+ℤ◌, ◌<◌, ◌≤◌, ◌^◌, List, All, Contains, OnOk, IfOk, length};
ghost use Rattle.std.specs.List.{AllWithin};
ghost use Rattle.std.specs.List.Sorted.{IsSorted, IsStrictlySortedBy};
ghost use Rattle.std.specs.Ordering.{is_lt};
ghost use Rattle.geom_rect.specs.Rect.{IsCoordinate};
ghost use Rattle.grid_pieces.specs.declared.piece.StackAt.{StackAt};
ghost use Rattle.grid_network.specs.Listing.{ListsAll};
ghost use Rattle.grid_network.specs.Drawing.{Drawing, IsJunction, HasPad, HasTap};
ghost use Rattle.grid_network.specs.inside.Steps.{Adds, spot_on_piece, IsEnd, IsEndOn, IsEndOf, IsEndBelow, spot_cmp, junction_cmp};

use crate::order::put_in_order;
use crate::pad::{PadOn, Tap};
use crate::spot::{Spot, spot_on, spots};
use geom_rect::Axis;
use grid_pieces::{Grid, Piece, StackAt};
use std::alloc::{AllocError, Global};

/// A place along a piece, which is given by its number.
#[derive(Clone, Copy, Debug, PartialEq, Eq, PartialOrd, Ord)]
pub(crate) struct Junction {
    pub(crate) piece: u32,
    pub(crate) along: i64,
}

// The place of a pad.
fn at_pad(pad: &PadOn) -> Junction
    ensures { result ≡ record { piece = pad.now.piece; along = pad.now.along } }
{
    Junction {
        piece: pad.piece,
        along: pad.along,
    }
}

// Adds the places of the pads.
fn add_pads(places: &mut Vec<Junction>, pads: &[PadOn]) -> Result<(), AllocError>
    ensures { OnOk result (Adds (λ j. HasPad pads.now j.piece j.along) places.old.items places.new.items) }
{
    for pad in pads {
        places.push(at_pad(pad))?;
    }
    Ok(())
}

// The place of a tap.
fn at_tap(tap: &Tap) -> Junction
    ensures { result ≡ record { piece = tap.now.piece; along = tap.now.along } }
{
    Junction {
        piece: tap.piece,
        along: tap.along,
    }
}

// Adds the places of the taps.
fn add_taps(places: &mut Vec<Junction>, taps: &[Tap]) -> Result<(), AllocError>
    ensures { OnOk result (Adds (λ j. HasTap taps.now j.piece j.along) places.old.items places.new.items) }
{
    for tap in taps {
        places.push(at_tap(tap))?;
    }
    Ok(())
}

// The place of a piece at a spot.
fn at_spot(number: u32, spot: &Spot) -> Junction
    ensures { result ≡ record { piece = number; along = spot.now.along } }
{
    Junction {
        piece: number,
        along: spot.along,
    }
}

// How many of the ordered spots come before a spot.
fn count_before(spots: &[Spot], limit: Spot) -> usize
    requires { IsSorted spot_cmp spots.now }
    ensures bound { result ≤ length spots.now }
    ensures before { AllWithin (λ s. is_lt (spot_cmp s limit) ≡ true) spots.now 0 result }
    ensures behind { AllWithin (λ s. is_lt (spot_cmp s limit) ≡ false) spots.now result (length spots.now) }
{
    spots.partition_point(|spot| *spot < limit)
}

// The spot at which a piece begins.
fn first_spot(piece: &Piece) -> Spot
    ensures { result ≡ spot_on_piece piece.now piece.now.from }
{
    spot_on(piece, piece.from)
}

// The first spot behind a piece.
fn spot_behind(piece: &Piece) -> Spot
    requires { IsCoordinate piece.now.to }
    ensures { result ≡ spot_on_piece piece.now (piece.now.to +ℤ pos 1) }
{
    spot_on(piece, piece.to + 1)
}

// Adds the places of one piece at which a stack ends: they follow on each other in the ordered list of ends.
fn add_ends_on(
    places: &mut Vec<Junction>,
    spots: &[Spot],
    piece: &Piece,
    number: u32,
) -> Result<(), AllocError>
    requires sorted { IsSorted spot_cmp spots.now }
    requires end { IsCoordinate piece.now.to }
    ensures { OnOk result (Adds (IsEndOn spots.now piece.now number) places.old.items places.new.items) }
{
    let start = count_before(spots, first_spot(piece));
    let end = count_before(spots, spot_behind(piece));
    for i in start..end {
        places.push(at_spot(number, &spots[i]))?;
    }
    Ok(())
}

// Adds the places of one piece at which a stack ends, from the ordered ends along its axis.
fn add_ends_of(
    places: &mut Vec<Junction>,
    along_x: &[Spot],
    along_y: &[Spot],
    piece: &Piece,
    number: u32,
) -> Result<(), AllocError>
    requires sorted_x { IsSorted spot_cmp along_x.now }
    requires sorted_y { IsSorted spot_cmp along_y.now }
    requires end { IsCoordinate piece.now.to }
    ensures { OnOk result ((stacks : List StackAt) → ListsAll (IsEnd Axis.X stacks) along_x.now
        → ListsAll (IsEnd Axis.Y stacks) along_y.now
        → Adds (IsEndOf stacks piece.now number) places.old.items places.new.items) }
{
    match piece.axis {
        Axis::X => {
            add_ends_on(places, along_x, piece, number)?;
            Ok(())
        }
        Axis::Y => {
            add_ends_on(places, along_y, piece, number)?;
            Ok(())
        }
    }
}

// Adds the places of the pieces at which a stack ends.
fn add_ends(
    alloc: Global,
    places: &mut Vec<Junction>,
    pieces: &[Piece],
    stacks: &[StackAt],
) -> Result<(), AllocError>
    requires few { length pieces.now < 2 ^ 32 }
    requires pieces { All (λ p. IsCoordinate p.to) pieces.now }
    ensures { OnOk result (Adds (IsEndBelow stacks.now pieces.now (length pieces.now)) places.old.items
        places.new.items) }
{
    let along_x = spots(alloc, stacks, Axis::X)?;
    let along_y = spots(alloc, stacks, Axis::Y)?;
    let mut number: u32 = 0;
    for piece in pieces {
        add_ends_of(places, &along_x, &along_y, piece, number)?;
        number += 1;
    }
    Ok(())
}

/// All junctions, each once, in the order of the pieces and along each.
pub(crate) fn junctions(
    alloc: Global,
    grid: &Grid,
    pads: &[PadOn],
    taps: &[Tap],
) -> Result<Vec<Junction>, AllocError>
    requires few { length grid.now.pieces < 2 ^ 32 }
    requires pieces { All (λ p. IsCoordinate p.to) grid.now.pieces }
    requires pads { All (λ p. p.piece < length grid.now.pieces) pads.now }
    requires taps { All (λ t. t.piece < length grid.now.pieces) taps.now }
    ensures all { IfOk result (λ places. (d : Drawing)
        → d ≡ record { grid = grid.now; pads = pads.now; taps = taps.now }
        → ListsAll (λ j. IsJunction d j.piece j.along) places.items) }
    ensures sorted { IfOk result (λ places. IsStrictlySortedBy junction_cmp places.items) }
{
    let mut places = Vec::new(alloc);
    add_pads(&mut places, pads)?;
    add_taps(&mut places, taps)?;
    let pieces = grid.pieces.as_slice();
    add_ends(alloc, &mut places, pieces, grid.stacks.as_slice())?;
    put_in_order(&mut places);
    Ok(places)
}
