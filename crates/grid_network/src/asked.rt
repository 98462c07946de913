//! Whether a grid with its pads and taps is what a network is made of.
ghost use Rattle.std.specs.Prelude.{◌≡◌, ◌≢◌, ◌↔◌, ◌<◌, ◌^◌, pos, ◌+ℤ◌, ◌-ℤ◌, ◌≤ℤ◌, ◌<ℤ◌, All, IsTrue, None, length};
ghost use Rattle.geom_rect.specs.Drawn.{half, centred};
ghost use Rattle.geom_rect.specs.Rect.{IsCoordinate, HasCoordinates};
ghost use Rattle.grid_pieces.specs.Limits.{WidthKeeps, PieceKeeps};
ghost use Rattle.grid_network.specs.Asked.{sheet_of, IsPieceOf, IsStackOf, IsOnPiece, IsDrawing};

use crate::pad::{PadOn, Tap};
use geom_rect::{Axis, GREATEST_COORDINATE};
use grid_pieces::{Grid, Piece, StackAt};
use lef_tech::{RoutingLayer, Tech};

// One more than the greatest number of 32 bits.
const MOST: usize = 1 << 32;

fn is_coordinate(z: i64) -> bool
    ensures { IsTrue result ↔ IsCoordinate z }
{
    -GREATEST_COORDINATE <= z && z <= GREATEST_COORDINATE
}

fn width_keeps(width: i64) -> bool
    ensures { IsTrue result ↔ WidthKeeps width }
{
    2 <= width && width < 1 << 32
}

fn are_coordinates(low: i64, high: i64) -> bool
    ensures { IsTrue result ↔ (IsCoordinate low × IsCoordinate high) }
{
    is_coordinate(low) && is_coordinate(high)
}

fn half_of(width: i64) -> i64
    requires { WidthKeeps width }
    ensures half { result ≡ half width }
    ensures least { pos 1 ≤ℤ result }
    ensures greatest { result <ℤ pos (2 ^ 31) }
{
    width / 2
}

fn lower_side(centre: i64, half: i64) -> i64
    requires centre { IsCoordinate centre }
    requires least { pos 1 ≤ℤ half }
    requires greatest { half <ℤ pos (2 ^ 31) }
    ensures { result ≡ centre -ℤ half }
{
    centre - half
}

fn upper_side(centre: i64, half: i64) -> i64
    requires centre { IsCoordinate centre }
    requires least { pos 1 ≤ℤ half }
    requires greatest { half <ℤ pos (2 ^ 31) }
    ensures { result ≡ centre +ℤ half }
{
    centre + half
}

// Whether the sides of a piece lie at coordinates. The centre line is looked at first, so that the sides are numbers of
// 64 bits.
fn sides_keep(centre: i64, width: i64) -> bool
    requires { WidthKeeps width }
    ensures { IsTrue result ↔ (IsCoordinate (centre -ℤ half width) × IsCoordinate (centre +ℤ half width)) }
{
    let half = half_of(width);
    if !is_coordinate(centre) {
        return false;
    }
    are_coordinates(lower_side(centre, half), upper_side(centre, half))
}

fn edges_keep(axis: Axis, centre: i64, width: i64, from: i64, to: i64) -> bool
    requires { WidthKeeps width }
    ensures { IsTrue result ↔ HasCoordinates (centred axis centre width from to) }
{
    are_coordinates(from, to) && sides_keep(centre, width)
}

fn piece_keeps(piece: &Piece) -> bool
    ensures { IsTrue result ↔ PieceKeeps piece.now }
{
    if !width_keeps(piece.width) {
        return false;
    }
    if piece.from >= piece.to {
        return false;
    }
    edges_keep(piece.axis, piece.centre, piece.width, piece.from, piece.to)
}

// The resistance of a square of a layer.
pub(crate) fn sheet_of(layers: &[RoutingLayer], layer: u32) -> Option<u64>
    ensures { result ≡ sheet_of layers.now layer }
{
    match layers.get(layer as usize) {
        Some(layer) => layer.sheet,
        None => None,
    }
}

fn is_piece_of(grid: &Grid, tech: &Tech, piece: &Piece) -> bool
    ensures { IsTrue result ↔ IsPieceOf grid.now tech.now piece.now }
{
    let layers = tech.routing.as_slice();
    piece_keeps(piece)
        && (piece.net as usize) < grid.nets.as_slice().len()
        && (piece.layer as usize) < layers.len()
        && sheet_of(layers, piece.layer).is_some()
}

fn is_stack_of(grid: &Grid, tech: &Tech, at: &StackAt) -> bool
    ensures { IsTrue result ↔ IsStackOf grid.now tech.now at.now }
{
    let stack = &at.stack;
    if stack.from >= stack.to {
        return false;
    }
    let count = (stack.to - stack.from) as usize;
    (at.net as usize) < grid.nets.as_slice().len()
        && (stack.to as usize) < tech.routing.as_slice().len()
        && stack.arrays.as_slice().len() == count
        && stack.ohms.as_slice().len() == count
}

// Whether a place lies on the piece with a number.
fn is_on_piece(pieces: &[Piece], number: u32, along: i64) -> bool
    ensures { IsTrue result ↔ IsOnPiece pieces.now number along }
{
    match pieces.get(number as usize) {
        Some(piece) => piece.from <= along && along <= piece.to,
        None => false,
    }
}

fn is_pad_on(pieces: &[Piece], pad: &PadOn) -> bool
    ensures { IsTrue result ↔ IsOnPiece pieces.now pad.now.piece pad.now.along }
{
    is_on_piece(pieces, pad.piece, pad.along)
}

fn is_tap_on(pieces: &[Piece], tap: &Tap) -> bool
    ensures { IsTrue result ↔ IsOnPiece pieces.now tap.now.piece tap.now.along }
{
    is_on_piece(pieces, tap.piece, tap.along)
}

fn is_range(tap: &Tap) -> bool
    ensures { IsTrue result ↔ (tap.now.low ≤ℤ tap.now.high) }
{
    tap.low <= tap.high
}

fn are_pieces(grid: &Grid, tech: &Tech) -> bool
    ensures { IsTrue result ↔ All (IsPieceOf grid.now tech.now) grid.now.pieces }
{
    let pieces = grid.pieces.as_slice();
    pieces.iter().all(|piece| is_piece_of(grid, tech, piece))
}

fn are_stacks(grid: &Grid, tech: &Tech) -> bool
    ensures { IsTrue result ↔ All (IsStackOf grid.now tech.now) grid.now.stacks }
{
    let stacks = grid.stacks.as_slice();
    stacks.iter().all(|stack| is_stack_of(grid, tech, stack))
}

fn are_pads(pieces: &[Piece], pads: &[PadOn]) -> bool
    ensures { IsTrue result ↔ All (λ p. IsOnPiece pieces.now p.piece p.along) pads.now }
{
    pads.iter().all(|pad| is_pad_on(pieces, pad))
}

fn are_taps(pieces: &[Piece], taps: &[Tap]) -> bool
    ensures { IsTrue result ↔ All (λ t. IsOnPiece pieces.now t.piece t.along) taps.now }
{
    taps.iter().all(|tap| is_tap_on(pieces, tap))
}

fn are_ranges(taps: &[Tap]) -> bool
    ensures { IsTrue result ↔ All (λ t. t.low ≤ℤ t.high) taps.now }
{
    taps.iter().all(is_range)
}

/// Whether a grid with its pads and load taps is what `network` asks for: each piece and each stack is one of the grid
/// over the technology, each pad and each tap lies on its piece, and no tap's low end is above its high end.
pub fn is_drawing(grid: &Grid, tech: &Tech, pads: &[PadOn], taps: &[Tap]) -> bool
    ensures { IsTrue result ↔ IsDrawing (record { grid = grid.now; pads = pads.now; taps = taps.now }) tech.now }
{
    let pieces = grid.pieces.as_slice();
    let few = tech.routing.as_slice().len() < MOST
        && pieces.len() < MOST
        && grid.stacks.as_slice().len() < MOST;
    few && are_pieces(grid, tech)
        && are_stacks(grid, tech)
        && are_pads(pieces, pads)
        && are_taps(pieces, taps)
        && are_ranges(taps)
}
