//! Whether a stack has an end on a piece.
ghost use Rattle.std.specs.Prelude.{◌≡◌, ◌==◌, ◌||◌, IfOk, map};
ghost use Rattle.std.specs.List.{list_any};
ghost use Rattle.pin_taps.specs.declared.ends.Ends.{Ends};
ghost use Rattle.pin_taps.specs.Fed.{line_along, has_stack_end};
ghost use Rattle.pin_taps.specs.inside.Tables.{stack_entry};

use geom_rect::{Axis, Rect};
use grid_pieces::{Piece, StackAt};
use rect_index::{Entry, RectIndex};
use std::alloc::{AllocError, Global};

// The lowest and the highest layer of a stack.
#[derive(Clone, Copy, Debug, PartialEq, Eq)]
pub(crate) struct Ends {
    pub(crate) from: u32,
    pub(crate) to: u32,
}

// An index of the ends of stacks, by their nets and their places.
pub(crate) fn ends_of(alloc: Global, stacks: &[StackAt]) -> Result<RectIndex<Ends>, AllocError>
    ensures { IfOk result (λ index. index ≡ map stack_entry stacks.now) }
{
    let mut entries = Vec::with_capacity(alloc, stacks.len())?;
    for stack in stacks {
        entries.push(stack_entry(stack))?;
    }
    RectIndex::new(alloc, &entries)
}

fn stack_entry(stack: &StackAt) -> Entry<Ends>
    ensures { result ≡ stack_entry stack.now }
{
    Entry {
        group: stack.net,
        rect: Rect {
            x1: stack.x,
            y1: stack.y,
            x2: stack.x,
            y2: stack.y,
        },
        item: Ends {
            from: stack.stack.from,
            to: stack.stack.to,
        },
    }
}

// Whether one of the stacks has an end on the piece.
pub(crate) fn has_stack_end(
    alloc: Global,
    stacks: &[StackAt],
    index: &RectIndex<Ends>,
    piece: &Piece,
) -> Result<bool, AllocError>
    requires { index.now ≡ map stack_entry stacks.now }
    ensures { IfOk result (λ has. has ≡ has_stack_end stacks.now piece.now) }
{
    let line = line_along(piece.axis, piece.centre, piece.from, piece.to);
    let found = index.found(alloc, piece.net, line)?;
    Ok(is_one_on(&found, piece.layer))
}

// Whether one of the ends is on the layer.
fn is_one_on(found: &[Ends], layer: u32) -> bool
    ensures { result ≡ list_any (λ (e : Ends). (e.from == layer) || (e.to == layer)) found.now }
{
    found
        .iter()
        .any(|ends| ends.from == layer || ends.to == layer)
}

fn line_along(axis: Axis, centre: i64, from: i64, to: i64) -> Rect
    ensures { result ≡ line_along axis centre from to }
{
    match axis {
        Axis::X => Rect {
            x1: from,
            y1: centre,
            x2: to,
            y2: centre,
        },
        Axis::Y => Rect {
            x1: centre,
            y1: from,
            x2: centre,
            y2: to,
        },
    }
}
