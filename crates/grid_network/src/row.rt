//! The resistors with what they are.
ghost use Rattle.std.specs.Prelude.{◌≡◌, ℕ, ◌+◌, ◌<◌, ◌^◌, ◌++◌, ◌-◌, pos, ◌≤ℤ◌, ◌-ℤ◌, ◌*ℤ◌, min, max, List, All, IfOk, OnOk, length, map, slice_get};
ghost use Rattle.std.specs.Option.{option_map, option_to_list};
ghost use Rattle.lef_tech.specs.declared.tech.Tech.{Tech};
ghost use Rattle.grid_network.specs.declared.key.Key.{Key};
ghost use Rattle.grid_network.specs.declared.segment.Segment.{Segment};
ghost use Rattle.grid_network.specs.Listing.{ListsAll, EachOnce};
ghost use Rattle.grid_network.specs.Drawing.{Drawing, key_at, key_on, IsJunction};
ghost use Rattle.grid_network.specs.Nodes.{IsNode, number_of};
ghost use Rattle.grid_network.specs.Segments.{nearest, wire_ohms, cut_array, IsSegment, AreSegments};
ghost use Rattle.grid_network.specs.inside.Steps.{TellsNumbers, row_of_segment, wire_to, wires_below, arrays_below, cuts_below, AreAlong, IsMeasured, IsStacked};

use crate::asked::sheet_of;
use crate::branch::Branch;
use crate::junction::Junction;
use crate::key::Key;
use crate::number::{Numbers, number_of};
use crate::place::{key_of_stack, key_on};
use crate::question::numbers_of_junctions;
use crate::segment::Segment;
use grid_net::Resistor;
use grid_pieces::{Grid, Piece, StackAt};
use lef_tech::RoutingLayer;
use rounding::div_floor;
use std::alloc::{AllocError, Global};

/// A resistor between two nodes, the earlier one first, with what it is.
#[derive(Clone, Copy, Debug, PartialEq, Eq, PartialOrd, Ord)]
pub(crate) struct Row {
    pub(crate) a: u32,
    pub(crate) b: u32,
    pub(crate) branch: Branch,
    pub(crate) ohms: i128,
}

// A resistance of a square times a length.
fn times(square: u64, long: i64) -> i128
    requires low { pos 0 ≤ℤ long }
    requires high { long ≤ℤ pos (2 ^ 62) }
    ensures product { result ≡ pos square *ℤ long }
    ensures least { pos 0 ≤ℤ result }
    ensures greatest { result ≤ℤ pos (2 ^ 126 - 2 ^ 33) }
{
    i128::from(square) * i128::from(long)
}

// A number over a width, rounded to nearest, halves up.
fn nearest(number: i128, width: i128) -> i128
    requires least { pos 0 ≤ℤ number }
    requires greatest { number ≤ℤ pos (2 ^ 126 - 2 ^ 33) }
    requires wide { pos 1 ≤ℤ width }
    requires narrow { width ≤ℤ pos (2 ^ 32) }
    ensures { result ≡ nearest number width }
{
    div_floor(2 * number + width, 2 * width)
}

// The resistance of so much length of a piece, rounded to nearest, halves up, and at least 1 nano-ohm.
fn wire_ohms(layers: &[RoutingLayer], piece: &Piece, long: i64) -> i128
    requires piece { IsMeasured piece.now }
    requires low { pos 0 ≤ℤ long }
    requires high { long ≤ℤ pos (2 ^ 62) }
    ensures { result ≡ wire_ohms layers.now piece.now long }
{
    let number = times(sheet_of(layers, piece.layer).unwrap_or(0), long);
    nearest(number, i128::from(piece.width)).max(1)
}

// The row of a segment between two nodes, which are given by their numbers.
fn row_between(i: u32, j: u32, segment: &Segment) -> Row
    ensures { result ≡ record { a = min i j; b = max i j; branch = segment.now.branch; ohms = segment.now.ohms } }
{
    Row {
        a: i.min(j),
        b: i.max(j),
        branch: segment.branch,
        ohms: segment.ohms,
    }
}

// The row of a segment.
fn row_of(nodes: Numbers, segment: &Segment) -> Row
    requires { length nodes.numbers.now ≡ length nodes.places.now }
    ensures { (keys : List Key) → TellsNumbers keys nodes.entry.places.now nodes.entry.numbers.now
        → result ≡ row_of_segment keys segment.now }
{
    let i = number_of(nodes, &segment.first);
    let j = number_of(nodes, &segment.second);
    row_between(i, j, segment)
}

// The point of a junction of a piece.
fn key_of(piece: &Piece, junction: &Junction) -> Key
    ensures { result ≡ key_on piece.now junction.now.along }
{
    key_on(piece, junction.along)
}

// The resistance of a piece between two junctions.
fn ohms_between(layers: &[RoutingLayer], piece: &Piece, near: &Junction, far: &Junction) -> i128
    requires piece { IsMeasured piece.now }
    requires low { piece.now.from ≤ℤ near.now.along }
    requires rising { near.now.along ≤ℤ far.now.along }
    requires high { far.now.along ≤ℤ piece.now.to }
    ensures { result ≡ wire_ohms layers.now piece.now (far.now.along -ℤ near.now.along) }
{
    wire_ohms(layers, piece, far.along - near.along)
}

// The wire of a piece between two junctions.
fn wire_between(layers: &[RoutingLayer], piece: &Piece, near: &Junction, far: &Junction) -> Segment
    requires piece { IsMeasured piece.now }
    requires low { piece.now.from ≤ℤ near.now.along }
    requires rising { near.now.along ≤ℤ far.now.along }
    requires high { far.now.along ≤ℤ piece.now.to }
    ensures { result ≡ record {
      branch = Branch.Wire far.now.piece;
      first = key_on piece.now near.now.along;
      second = key_on piece.now far.now.along;
      ohms = wire_ohms layers.now piece.now (far.now.along -ℤ near.now.along);
    } }
{
    Segment {
        branch: Branch::Wire(far.piece),
        first: key_of(piece, near),
        second: key_of(piece, far),
        ohms: ohms_between(layers, piece, near, far),
    }
}

// The wire that ends at a junction: in the ordered list of all junctions, two neighbours of one piece follow on each
// other.
fn wire_to(
    layers: &[RoutingLayer],
    pieces: &[Piece],
    junctions: &[Junction],
    i: usize,
) -> Option<Segment>
    requires within { i < length junctions.now }
    requires pieces { All IsMeasured pieces.now }
    requires junctions { AreAlong pieces.now junctions.now }
    ensures { result ≡ wire_to layers.now pieces.now junctions.now i }
{
    if i == 0 {
        return None;
    }
    let near = &junctions[i - 1];
    let far = &junctions[i];
    if near.piece != far.piece {
        return None;
    }
    Some(wire_between(layers, &pieces[far.piece as usize], near, far))
}

// The row of the wire that ends at a junction, if there is one, where `ends` are the numbers of the junctions.
fn wire_row(
    layers: &[RoutingLayer],
    pieces: &[Piece],
    junctions: &[Junction],
    ends: &[u32],
    i: usize,
) -> Option<Row>
    requires within { i < length junctions.now }
    requires pieces { All IsMeasured pieces.now }
    requires junctions { AreAlong pieces.now junctions.now }
    requires one_each { length ends.now ≡ length junctions.now }
    ensures { (keys : List Key) → ends.now ≡ map (λ j. number_of keys (key_at pieces.now j.piece j.along)) junctions.now
        → result ≡ option_map (row_of_segment keys) (wire_to layers.now pieces.now junctions.now i) }
{
    if i == 0 {
        return None;
    }
    match wire_to(layers, pieces, junctions, i) {
        Some(wire) => Some(row_between(ends[i - 1], ends[i], &wire)),
        None => None,
    }
}

// Adds a row, if there is one.
fn add_row(rows: &mut Vec<Row>, row: Option<Row>) -> Result<(), AllocError>
    ensures { OnOk result (rows.new.items ≡ rows.old.items ++ option_to_list row) }
{
    if let Some(row) = row {
        rows.push(row)?;
    }
    Ok(())
}

// Adds the rows of the wires, where `ends` are the numbers of the junctions.
fn add_wires(
    rows: &mut Vec<Row>,
    layers: &[RoutingLayer],
    pieces: &[Piece],
    junctions: &[Junction],
    ends: &[u32],
) -> Result<(), AllocError>
    requires pieces { All IsMeasured pieces.now }
    requires junctions { AreAlong pieces.now junctions.now }
    requires one_each { length ends.now ≡ length junctions.now }
    ensures { OnOk result ((keys : List Key) → ends.now ≡ map (λ j. number_of keys (key_at pieces.now j.piece j.along)) junctions.now
        → rows.new.items
        ≡ rows.old.items ++ map (row_of_segment keys) (wires_below layers.now pieces.now junctions.now (length junctions.now))) }
{
    for i in 0..junctions.len() {
        add_row(rows, wire_row(layers, pieces, junctions, ends, i))?;
    }
    Ok(())
}

// The array at a level of a stack.
fn cut_array(stack: &StackAt, number: u32, level: u32) -> Segment
    requires stack { IsStacked stack.now }
    requires level { level < length stack.now.stack.arrays }
    ensures { result ≡ cut_array stack.now number level }
{
    let top = stack.stack.to;
    let layer = stack.stack.from + level;
    prove!(layer < top);
    Segment {
        branch: Branch::Cuts(number, level),
        first: key_of_stack(stack, layer),
        second: key_of_stack(stack, layer + 1),
        ohms: i128::from(stack.stack.ohms.as_slice()[level as usize]),
    }
}

// Adds the rows of the arrays of one stack.
fn add_arrays(
    rows: &mut Vec<Row>,
    nodes: Numbers,
    stack: &StackAt,
    number: u32,
) -> Result<(), AllocError>
    requires numbers { length nodes.numbers.now ≡ length nodes.places.now }
    requires stack { IsStacked stack.now }
    ensures { OnOk result ((keys : List Key) → TellsNumbers keys nodes.entry.places.now nodes.entry.numbers.now
        → rows.new.items
        ≡ rows.old.items ++ map (row_of_segment keys) (arrays_below stack.now number (length stack.now.stack.arrays))) }
{
    let levels = stack.stack.to - stack.stack.from;
    for level in 0..levels {
        rows.push(row_of(nodes, &cut_array(stack, number, level)))?;
    }
    Ok(())
}

// Adds the rows of the arrays of all stacks.
fn add_stacks(rows: &mut Vec<Row>, nodes: Numbers, stacks: &[StackAt]) -> Result<(), AllocError>
    requires numbers { length nodes.numbers.now ≡ length nodes.places.now }
    requires few { length stacks.now < 2 ^ 32 }
    requires stacks { All IsStacked stacks.now }
    ensures { OnOk result ((keys : List Key) → TellsNumbers keys nodes.entry.places.now nodes.entry.numbers.now
        → rows.new.items ≡ rows.old.items ++ map (row_of_segment keys) (cuts_below stacks.now (length stacks.now))) }
{
    let mut number: u32 = 0;
    for stack in stacks {
        add_arrays(rows, nodes, stack, number)?;
        number += 1;
    }
    Ok(())
}

// The rows of all segments.
fn all_rows(
    alloc: Global,
    grid: &Grid,
    layers: &[RoutingLayer],
    junctions: &[Junction],
    nodes: Numbers,
) -> Result<Vec<Row>, AllocError>
    requires numbers { length nodes.numbers.now ≡ length nodes.places.now }
    requires few { length grid.now.stacks < 2 ^ 32 }
    requires pieces { All IsMeasured grid.now.pieces }
    requires stacks { All IsStacked grid.now.stacks }
    requires junctions { AreAlong grid.now.pieces junctions.now }
    ensures { IfOk result (λ rows. (d : Drawing) (tech : Tech) (keys : List Key) → d.grid ≡ grid.now
        → tech.routing ≡ layers.now → ListsAll (λ j. IsJunction d j.piece j.along) junctions.now
        → TellsNumbers keys nodes.entry.places.now nodes.entry.numbers.now
        → (segments : List Segment) × (rows.items ≡ map (row_of_segment keys) segments)
        × ListsAll (IsSegment d tech) segments × EachOnce segments) }
{
    let pieces = grid.pieces.as_slice();
    let ends = numbers_of_junctions(alloc, nodes, pieces, junctions)?;
    let mut rows = Vec::new(alloc);
    add_wires(&mut rows, layers, pieces, junctions, &ends)?;
    add_stacks(&mut rows, nodes, grid.stacks.as_slice())?;
    Ok(rows)
}

/// The rows of all segments, in order.
pub(crate) fn rows(
    alloc: Global,
    grid: &Grid,
    layers: &[RoutingLayer],
    junctions: &[Junction],
    nodes: Numbers,
) -> Result<Vec<Row>, AllocError>
    requires numbers { length nodes.numbers.now ≡ length nodes.places.now }
    requires few { length grid.now.stacks < 2 ^ 32 }
    requires pieces { All IsMeasured grid.now.pieces }
    requires stacks { All IsStacked grid.now.stacks }
    requires junctions { AreAlong grid.now.pieces junctions.now }
    ensures { IfOk result (λ rows. (d : Drawing) (tech : Tech) (keys : List Key) → d.grid ≡ grid.now
        → tech.routing ≡ layers.now → ListsAll (λ j. IsJunction d j.piece j.along) junctions.now
        → ListsAll (IsNode d) keys → TellsNumbers keys nodes.entry.places.now nodes.entry.numbers.now
        → (segments : List Segment) × (rows.items ≡ map (row_of_segment keys) segments)
        × AreSegments d tech keys segments) }
{
    let mut rows = all_rows(alloc, grid, layers, junctions, nodes)?;
    rows.sort_unstable();
    Ok(rows)
}

/// The resistors of the rows.
pub(crate) fn resistors_of(alloc: Global, rows: &[Row]) -> Result<Vec<Resistor>, AllocError>
    ensures { IfOk result (λ resistors. resistors.items ≡ map (λ r. record { a = r.a; b = r.b; ohms = r.ohms }) rows.now) }
{
    let mut resistors = Vec::with_capacity(alloc, rows.len())?;
    for row in rows {
        resistors.push(Resistor {
            a: row.a,
            b: row.b,
            ohms: row.ohms,
        })?;
    }
    Ok(resistors)
}

/// The branches of the rows.
pub(crate) fn branches_of(alloc: Global, rows: &[Row]) -> Result<Vec<Branch>, AllocError>
    ensures { IfOk result (λ branches. branches.items ≡ map (λ r. r.branch) rows.now) }
{
    let mut branches = Vec::with_capacity(alloc, rows.len())?;
    for row in rows {
        branches.push(row.branch)?;
    }
    Ok(branches)
}
