//! The special wiring of a net.
ghost use Rattle.std.specs.Prelude.{◌≡◌, ◌++◌, ◌&&◌, ◌==◌, ◌+◌, ◌<◌, ◌≤◌, true, OnOk, All, length, map, flat_map};
ghost use Rattle.std.specs.List.{enumerate_from};
ghost use Rattle.grid_pieces.specs.declared.piece.Piece.{Piece};
ghost use Rattle.def_writer.specs.Limits.{StackFits};
ghost use Rattle.def_writer.specs.Line.{line_of, text_of};
ghost use Rattle.def_writer.specs.Wiring.{shape_word, point_on, piece_words, array_words, stack_words, wiring_line, wiring_lines, wiring_words};
ghost use Rattle.def_writer.specs.inside.Line.{spaced};
ghost use Rattle.def_writer.specs.inside.Wiring.{wire_words, place_words, start_of};

use crate::line::{append_line, append_words, digits};
use crate::via::{append_name, via_of};
use geom_rect::{Axis, Shape};
use grid_pieces::{Piece as Metal, StackAt};
use itoa::Buffer;
use lef_tech::Tech;
use std::alloc::AllocError;
use via_arrays::CutArray;

// The lines of a net's wiring: of its pieces, and then of its stacks.
pub(crate) fn append_wiring(
    out: &mut Vec<u8>,
    tech: &Tech,
    pieces: &[Metal],
    stacks: &[StackAt],
) -> Result<(), AllocError>
    requires layers { All (λ (p : Piece). p.layer < length tech.now.routing) pieces.now }
    requires arrays { All (StackFits tech.now) stacks.now }
    ensures { OnOk result (out.new.items
        ≡ out.old.items ++ text_of (wiring_lines true (wiring_words tech.now pieces.now stacks.now))) }
{
    append_pieces(out, tech, pieces)?;
    append_stacks(out, tech, stacks, is_first(true, pieces.len()))?;
    Ok(())
}

// The lines of pieces, which are the first ones of their net.
fn append_pieces(out: &mut Vec<u8>, tech: &Tech, pieces: &[Metal]) -> Result<(), AllocError>
    requires { All (λ (p : Piece). p.layer < length tech.now.routing) pieces.now }
    ensures { OnOk result (out.new.items
        ≡ out.old.items ++ text_of (wiring_lines true (map (piece_words tech.now) pieces.now))) }
{
    for (place, piece) in pieces.iter().enumerate() {
        append_piece(out, tech, piece, is_first(true, place))?;
    }
    Ok(())
}

// The line of a piece.
fn append_piece(
    out: &mut Vec<u8>,
    tech: &Tech,
    piece: &Metal,
    first: bool,
) -> Result<(), AllocError>
    requires { piece.now.layer < length tech.now.routing }
    ensures { OnOk result (out.new.items
        ≡ out.old.items ++ line_of (wiring_line first (piece_words tech.now piece.now))) }
{
    let layer = tech.routing.as_slice()[piece.layer as usize].name.bytes();
    let from = point_on(piece.axis, piece.from, piece.centre);
    let to = point_on(piece.axis, piece.to, piece.centre);
    append_start(out, first)?;
    append_wire(out, layer, piece.width, shape_word(piece.shape), from, to)?;
    Ok(())
}

// The point of a line along an axis that lies so far along it and across it.
fn point_on(axis: Axis, along: i64, across: i64) -> (i64, i64)
    ensures { result ≡ point_on axis along across }
{
    match axis {
        Axis::X => (along, across),
        Axis::Y => (across, along),
    }
}

// Whether a line is the first after so many, of which the first was one or was not.
fn is_first(first: bool, before: usize) -> bool
    ensures { result ≡ (first && (before == 0)) }
{
    first && before == 0
}

// How a line of wiring begins.
fn append_start(out: &mut Vec<u8>, first: bool) -> Result<(), AllocError>
    ensures { OnOk result (out.new.items ≡ out.old.items ++ start_of first) }
{
    if first {
        out.extend_from_slice(b"+ ROUTED ")
    } else {
        out.extend_from_slice(b"NEW ")
    }
}

// The layer, the width and the shape of a piece, and the ends of its centre line.
fn append_wire<'a>(
    out: &mut Vec<u8>,
    layer: &'a [u8],
    width: i64,
    shape: &'a [u8],
    from: (i64, i64),
    to: (i64, i64),
) -> Result<(), AllocError>
    ensures { OnOk result (out.new.items ≡ out.old.items ++ line_of (wire_words layer.now width shape.now from to)) }
{
    let (mut x1, mut y1, mut x2) = (Buffer::new(), Buffer::new(), Buffer::new());
    let (mut y2, mut across) = (Buffer::new(), Buffer::new());
    let width = digits(&mut across, width);
    let left = digits(&mut x1, from.0);
    let low = digits(&mut y1, from.1);
    let right = digits(&mut x2, to.0);
    let high = digits(&mut y2, to.1);
    append_line(
        out,
        &[
            layer, width, b"+", b"SHAPE", shape, b"(", left, low, b")", b"(", right, high, b")",
        ],
    )
}

// The word after SHAPE.
fn shape_word<'a>(shape: Shape) -> &'a [u8]
    ensures { result.now ≡ shape_word shape }
{
    match shape {
        Shape::Ring => b"RING",
        Shape::Stripe => b"STRIPE",
        Shape::FollowPin => b"FOLLOWPIN",
    }
}

// The lines of stacks.
fn append_stacks(
    out: &mut Vec<u8>,
    tech: &Tech,
    stacks: &[StackAt],
    first: bool,
) -> Result<(), AllocError>
    requires { All (StackFits tech.now) stacks.now }
    ensures { OnOk result (out.new.items
        ≡ out.old.items ++ text_of (wiring_lines first (flat_map (stack_words tech.now) stacks.now))) }
{
    let mut first = first;
    for at in stacks {
        append_stack(out, tech, at, first)?;
        first = is_first(first, at.stack.arrays.as_slice().len());
    }
    Ok(())
}

// The lines of a stack, one for each array, bottom up.
fn append_stack(out: &mut Vec<u8>, tech: &Tech, at: &StackAt, first: bool) -> Result<(), AllocError>
    requires { StackFits tech.now at.now }
    ensures { OnOk result (out.new.items
        ≡ out.old.items ++ text_of (wiring_lines first (stack_words tech.now at.now))) }
{
    for (level, array) in at.stack.arrays.as_slice().iter().enumerate() {
        let layer = at.stack.from as usize + level;
        let begins = is_first(first, level);
        append_array(out, tech, layer, (at.x, at.y), array, begins)?;
    }
    Ok(())
}

// The line of an array of a stack.
fn append_array(
    out: &mut Vec<u8>,
    tech: &Tech,
    layer: usize,
    at: (i64, i64),
    array: &CutArray,
    first: bool,
) -> Result<(), AllocError>
    requires { layer < length tech.now.routing }
    ensures { OnOk result (out.new.items
        ≡ out.old.items ++ line_of (wiring_line first (array_words tech.now at (layer, array.now)))) }
{
    let name = tech.routing.as_slice()[layer].name.bytes();
    append_start(out, first)?;
    append_place(out, name, at)?;
    out.push(b' ')?;
    append_name(out, via_of(array))?;
    out.push(b'\n')?;
    Ok(())
}

// The layer and the point of an array of a stack.
fn append_place(out: &mut Vec<u8>, layer: &[u8], at: (i64, i64)) -> Result<(), AllocError>
    ensures { OnOk result (out.new.items ≡ out.old.items ++ spaced (place_words layer.now at)) }
{
    let (mut in_x, mut in_y) = (Buffer::new(), Buffer::new());
    let x = digits(&mut in_x, at.0);
    let y = digits(&mut in_y, at.1);
    append_words(
        out,
        &[layer, b"0", b"+", b"SHAPE", b"STRIPE", b"(", x, y, b")"],
    )
}
