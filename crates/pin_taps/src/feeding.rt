//! The pieces that feed blocks.
ghost use Rattle.std.specs.Prelude.{◌≡◌, ◌<◌, IfOk, All, length, map};
ghost use Rattle.pin_taps.specs.Fed.{feeding};
ghost use Rattle.pin_taps.specs.inside.Tables.{AreFeeding, stack_entry, net_point, pin_entry, is_joined};

use crate::ends::{Ends, ends_of, has_stack_end};
use geom_rect::Rect;
use grid_pieces::{Grid, Piece};
use macro_grid::MacroGrid;
use pin_pieces::PinPiece;
use rect_index::{Entry, RectIndex};
use std::alloc::{AllocError, Global};

// An index of the pieces that feed a block, by its component and their nets.
pub(crate) fn feeding_of(alloc: Global, drawn: &MacroGrid) -> Result<RectIndex<u32>, AllocError>
    requires { All (λ pin. pin.piece < length drawn.now.grid.pieces) drawn.now.pins }
    ensures { IfOk result (AreFeeding drawn.now) }
{
    let grid = &drawn.grid;
    let ends = ends_of(alloc, grid.stacks.as_slice())?;
    let mut entries = Vec::new(alloc);
    for pin in drawn.pins.as_slice() {
        if is_joined(alloc, grid, &ends, *pin)? {
            entries.push(pin_entry(grid, *pin))?;
        }
    }
    RectIndex::new(alloc, &entries)
}

// Whether a stack joins the piece of a pin to the grid.
fn is_joined(
    alloc: Global,
    grid: &Grid,
    ends: &RectIndex<Ends>,
    pin: PinPiece,
) -> Result<bool, AllocError>
    requires within { pin.piece < length grid.now.pieces }
    requires ends { ends.now ≡ map stack_entry grid.now.stacks }
    ensures { IfOk result (λ is. is ≡ is_joined grid.now pin) }
{
    let piece: &Piece = &grid.pieces.as_slice()[pin.piece as usize];
    has_stack_end(alloc, grid.stacks.as_slice(), ends, piece)
}

fn pin_entry(grid: &Grid, pin: PinPiece) -> Entry<u32>
    requires { pin.piece < length grid.now.pieces }
    ensures { result ≡ pin_entry grid.now pin }
{
    Entry {
        group: pin.component,
        rect: net_point(grid.pieces.as_slice()[pin.piece as usize].net),
        item: pin.piece,
    }
}

fn net_point(net: u32) -> Rect
    ensures { result ≡ net_point net }
{
    let at = i64::from(net);
    Rect {
        x1: at,
        y1: 0,
        x2: at,
        y2: 0,
    }
}

// The pieces that feed a net of a block, in their order.
pub(crate) fn feeding(
    alloc: Global,
    drawn: &MacroGrid,
    index: &RectIndex<u32>,
    component: u32,
    net: u32,
) -> Result<Vec<u32>, AllocError>
    requires { AreFeeding drawn.now index.now }
    ensures { IfOk result (λ numbers. numbers.items ≡ feeding drawn.now component net) }
{
    index.found(alloc, component, net_point(net))
}
