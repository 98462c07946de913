ghost use Rattle.std.specs.Prelude.{◌≡◌, ◌<◌, ◌↔◌, ◌^◌, ℕ, AllPairs, IsTrue, IfOk, MatchOption, map, length, false};
ghost use Rattle.std.specs.List.Sorted.{IsPermutation};
ghost use Rattle.std.specs.Ordering.{is_gt};
ghost use Rattle.grid_pieces.specs.declared.piece.Piece.{Piece};
ghost use Rattle.grid_taps.specs.declared.rail.Rail.{Rail};
ghost use Rattle.grid_taps.specs.Rails.{IsRail, Crosses, IsLowestRail};
ghost use Rattle.grid_taps.specs.inside.Rails.{rail_order, rail_of, rail_entry, IsDrawnRail, AreRailsOf, AreRailEntries};

use crate::column::{Column, window_of};
use geom_rect::{Axis, Rect, Shape};
use grid_pieces::{Grid, Piece};
use rect_index::{Entry, RectIndex};
use std::alloc::{AllocError, Global};

// The centre line of a rail, and its number among the pieces.
#[derive(Clone, Copy, Debug, PartialEq, Eq)]
pub(crate) struct Rail {
    pub(crate) net: u32,
    pub(crate) layer: u32,
    pub(crate) centre: i64,
    pub(crate) from: i64,
    pub(crate) to: i64,
    pub(crate) number: u32,
}

// An index of the centre lines of rails, by their nets, the lowest first.
pub(crate) fn rails_of(alloc: Global, grid: &Grid) -> Result<RectIndex<u32>, AllocError>
    requires { length grid.now.pieces < 2 ^ 32 }
    ensures { IfOk result (λ index. AreRailEntries grid.now.pieces index) }
{
    let mut rails = drawn_rails(alloc, grid.pieces.as_slice())?;
    sort(&mut rails);
    let entries = entries_of(alloc, &rails)?;
    RectIndex::new(alloc, &entries)
}

fn drawn_rails(alloc: Global, pieces: &[Piece]) -> Result<Vec<Rail>, AllocError>
    requires { length pieces.now < 2 ^ 32 }
    ensures { IfOk result (λ rails. AreRailsOf pieces.now (length pieces.now) rails.items) }
{
    let mut rails = Vec::new(alloc);
    for (number, piece) in pieces.iter().enumerate() {
        if is_rail(piece) {
            rails.push(rail_of(number as u32, piece))?;
        }
    }
    Ok(rails)
}

fn is_rail(piece: &Piece) -> bool
    ensures { IsTrue result ↔ IsDrawnRail piece.now }
{
    piece.shape == Shape::FollowPin && piece.axis == Axis::X
}

fn rail_of(number: u32, piece: &Piece) -> Rail
    ensures { result ≡ rail_of number piece.now }
{
    Rail {
        net: piece.net,
        layer: piece.layer,
        centre: piece.centre,
        from: piece.from,
        to: piece.to,
        number,
    }
}

fn sort(rails: &mut [Rail])
    ensures same { IsPermutation rails.old rails.new }
    ensures in_order { AllPairs (λ (a b : Rail). is_gt (rail_order a b) ≡ false) rails.new }
{
    rails.sort_unstable_by_key(|rail| (rail.net, rail.centre, rail.layer, rail.number));
}

fn entries_of(alloc: Global, rails: &[Rail]) -> Result<Vec<Entry<u32>>, AllocError>
    ensures { IfOk result (λ entries. entries.items ≡ map rail_entry rails.now) }
{
    rails.iter().map(|rail| rail_entry(rail)).collect(alloc)
}

fn rail_entry(rail: &Rail) -> Entry<u32>
    ensures { result ≡ rail_entry rail.now }
{
    Entry {
        group: rail.net,
        rect: Rect {
            x1: rail.from,
            y1: rail.centre,
            x2: rail.to,
            y2: rail.centre,
        },
        item: rail.number,
    }
}

// The lowest rail of the net that crosses the column.
pub(crate) fn lowest(grid: &Grid, rails: &RectIndex<u32>, net: u32, column: Column) -> Option<u32>
    requires { AreRailEntries grid.now.pieces rails.now }
    ensures { MatchOption result
        ((number : ℕ) (rail : Piece) → IsRail grid.now net number rail → Crosses column rail → ⊥)
        (IsLowestRail grid.now net column) }
{
    rails.first(net, window_of(column))
}
