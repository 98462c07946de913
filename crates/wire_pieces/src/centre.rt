ghost use Rattle.std.specs.Prelude.{◌≡◌, ◌↔◌, ◌<◌, ◌≤◌, ◌≤ℤ◌, IsTrue, IfOk, length, true, false};
ghost use Rattle.std.specs.Int.{int_max};
ghost use Rattle.std.specs.List.{AllWithin};
ghost use Rattle.std.specs.List.Sorted.{IsPermutation};
ghost use Rattle.std.specs.Ordering.{is_gt};
ghost use Rattle.grid_pieces.specs.declared.piece.Piece.{Piece};
ghost use Rattle.wire_pieces.specs.Centre.{IsHeld};
ghost use Rattle.wire_pieces.specs.inside.Centre.{AreAlike, AreByLine, AreReaches, AreReachesTo, IsOnAxis, IsReach, point_of, reach_order};

use crate::axis::is_upright;
use geom_rect::{Axis, Shape};
use grid_pieces::Piece;
use std::alloc::{AllocError, Global};
use std::cmp::Ordering;
use std::marker::Model;

/// The centre lines of pieces, by which it is found whether one of them has a place.
///
/// A contract sees the list of the pieces. To find whether one of n has a place takes about log n steps.
#[derive(Drop)]
pub struct CentreLines {
    // In the order of net, layer, axis, centre and start.
    pieces: Vec<Piece>,
    // For each of them how far the pieces of its line up to it reach.
    reaches: Vec<i64>,
}

impl Model for CentreLines {
    ghost use Rattle.std.specs.Prelude.{List};
    ghost use Rattle.grid_pieces.specs.declared.piece.Piece.{Piece};
    ghost use Rattle.wire_pieces.specs.inside.Centre.{AreReaches, AreByLine};

    ghost Value = { List Piece };

    ghost view = { λ lines. lines.pieces.items };

    ghost invariant = { λ lines. AreByLine lines.pieces.items × AreReaches lines.pieces.items lines.reaches.items };
}

impl CentreLines {
    /// The centre lines of these pieces.
    pub fn new(alloc: Global, pieces: &[Piece]) -> Result<CentreLines, AllocError>
        ensures { IfOk result (λ lines. IsPermutation pieces.now lines) }
    {
        let by_line = by_line(Vec::from_slice(alloc, pieces)?);
        let reaches = reaches(alloc, &by_line)?;
        Ok(CentreLines {
            pieces: by_line,
            reaches,
        })
    }

    /// Whether the place lies on the centre line of a piece of the net on the layer, ends included.
    pub fn have(&self, net: u32, layer: u32, x: i64, y: i64) -> bool
        ensures { IsTrue result ↔ IsHeld self.now net layer x y }
    {
        if self.have_along(&point(net, layer, Axis::X, x, y)) {
            return true;
        }
        self.have_along(&point(net, layer, Axis::Y, x, y))
    }

    // Whether the point lies on the centre line of a piece along its axis.
    fn have_along(&self, point: &Piece) -> bool
        ensures { IsTrue result ↔ IsOnAxis self.now point.now }
    {
        lies_on(&self.pieces, &self.reaches, point)
    }
}

// Whether the point lies on the centre line of one of pieces in order, of which it is known how far they reach.
fn lies_on(pieces: &[Piece], reaches: &[i64], point: &Piece) -> bool
    requires by_line { AreByLine pieces.now }
    requires reaches { AreReaches pieces.now reaches.now }
    ensures { IsTrue result ↔ IsOnAxis pieces.now point.now }
{
    let behind = first_behind(pieces, point);
    if behind == 0 {
        return false;
    }
    let last = behind - 1;
    if are_alike(&pieces[last], point) {
        return is_upto(point.from, reaches[last]);
    }
    false
}

fn is_upto(low: i64, high: i64) -> bool
    ensures { IsTrue result ↔ (low ≤ℤ high) }
{
    low <= high
}

fn greater(one: i64, other: i64) -> i64
    ensures { result ≡ int_max one other }
{
    if one < other {
        return other;
    }
    one
}

// A place as a piece along an axis, without a cell and without width.
fn point(net: u32, layer: u32, axis: Axis, x: i64, y: i64) -> Piece
    ensures { result ≡ point_of net layer axis x y }
{
    let (along, across) = match axis {
        Axis::X => (x, y),
        Axis::Y => (y, x),
    };
    Piece {
        net,
        layer,
        axis,
        centre: across,
        width: 0,
        from: along,
        to: along,
        shape: Shape::Stripe,
    }
}

fn by_line(pieces: Vec<Piece>) -> Vec<Piece>
    ensures same { IsPermutation pieces.items result.items }
    ensures in_order { AreByLine result.items }
{
    let mut all = pieces;
    sort(&mut all);
    all
}

fn sort(pieces: &mut [Piece])
    ensures same { IsPermutation pieces.old pieces.new }
    ensures in_order { AreByLine pieces.new }
{
    pieces.sort_unstable_by_key(|piece| {
        (
            piece.net,
            piece.layer,
            is_upright(piece.axis),
            piece.centre,
            piece.from,
        )
    });
}

// For each of pieces in order how far those of its line up to it reach.
fn reaches(alloc: Global, pieces: &[Piece]) -> Result<Vec<i64>, AllocError>
    requires { AreByLine pieces.now }
    ensures { IfOk result (λ reaches. AreReaches pieces.now reaches.items) }
{
    let mut reaches = Vec::new(alloc);
    for at in 0..pieces.len() {
        let reach = reach_at(pieces, &reaches, at);
        reaches.push(reach)?;
    }
    Ok(reaches)
}

// How far the pieces of a line reach up to the one at a place, where that of the earlier ones is known.
fn reach_at(pieces: &[Piece], reaches: &[i64], at: usize) -> i64
    requires by_line { AreByLine pieces.now }
    requires within { at < length pieces.now }
    requires known { AreReachesTo pieces.now reaches.now at }
    ensures { IsReach pieces.now at result }
{
    if at == 0 {
        return pieces[at].to;
    }
    if are_alike(&pieces[at - 1], &pieces[at]) {
        return greater(pieces[at].to, reaches[at - 1]);
    }
    pieces[at].to
}

// Whether two pieces lie on one line, their widths aside.
fn are_alike(one: &Piece, other: &Piece) -> bool
    ensures { IsTrue result ↔ AreAlike one.now other.now }
{
    one.net == other.net
        && one.layer == other.layer
        && is_upright(one.axis) == is_upright(other.axis)
        && one.centre == other.centre
}

// The place of the first piece that comes after the point.
fn first_behind(pieces: &[Piece], point: &Piece) -> usize
    requires { AreByLine pieces.now }
    ensures within { result ≤ length pieces.now }
    ensures before { AllWithin (λ (p : Piece). is_gt (reach_order p point.now) ≡ false) pieces.now 0 result }
    ensures behind { AllWithin (λ (p : Piece). is_gt (reach_order p point.now) ≡ true) pieces.now result
        (length pieces.now) }
{
    pieces.partition_point(|piece| !comes_after(piece, point))
}

fn comes_after(one: &Piece, other: &Piece) -> bool
    ensures { result ≡ is_gt (reach_order one.now other.now) }
{
    reach_order(one, other).is_gt()
}

fn reach_order(one: &Piece, other: &Piece) -> Ordering
    ensures { result ≡ reach_order one.now other.now }
{
    one.net
        .cmp(&other.net)
        .then(one.layer.cmp(&other.layer))
        .then(is_upright(one.axis).cmp(&is_upright(other.axis)))
        .then(one.centre.cmp(&other.centre))
        .then(one.from.cmp(&other.from))
}
