ghost use Rattle.std.specs.Prelude.{◌≡◌, ◌↔◌, ◌<◌, ◌≤◌, IsTrue, IfOk, Contains, length};
ghost use Rattle.geom_rect.specs.declared.rect.Rect.{Rect};
ghost use Rattle.lef_tech.specs.declared.layer.LayerRef.TheVariants.{Routing};
ghost use Rattle.grid_stacks.specs.inside.Standing.{IsFirstPlace, IsLastPlace, StandsWithin, IsInner};

use crate::connect::Connect;
use crate::inner::Inner;
use geom_rect::Rect;
use grid_pieces::Block;
use lef_tech::{LayerRef, Tech};
use std::alloc::{AllocError, Global};

// The rectangles of the blockages of layers strictly between the two of the connect, not grown, in an index.
pub(crate) fn inner_of(
    alloc: Global,
    tech: &Tech,
    connect: &Connect,
    blocks: &[Block],
) -> Result<Inner, AllocError>
    ensures { IfOk result (λ inner. (r : Rect) → Contains inner r ↔ IsInner tech.now connect.now blocks.now r) }
{
    let rects = inner_rects(alloc, tech, connect, blocks)?;
    Inner::new(alloc, &rects)
}

fn inner_rects(
    alloc: Global,
    tech: &Tech,
    connect: &Connect,
    blocks: &[Block],
) -> Result<Vec<Rect>, AllocError>
    ensures { IfOk result (λ rects. (r : Rect) → Contains rects.items r ↔ IsInner tech.now connect.now blocks.now r) }
{
    let order = tech.order.as_slice();
    let low = first_place(order, LayerRef::Routing(connect.from));
    let high = last_place(order, LayerRef::Routing(connect.to));
    let mut rects = Vec::new(alloc);
    for block in blocks {
        if stands_within(order, low, high, block.layer) {
            rects.push(block.plain)?;
        }
    }
    Ok(rects)
}

// The first place of a layer, or the number of all where it has none.
fn first_place(order: &[LayerRef], layer: LayerRef) -> usize
    ensures { IsFirstPlace order.now layer result }
{
    let mut place = 0;
    while place < order.len() && !same_layer(order[place], layer) {
        place += 1;
    }
    place
}

// The last place of a layer, or 0 where it has none.
fn last_place(order: &[LayerRef], layer: LayerRef) -> usize
    ensures { IsLastPlace order.now layer result }
{
    let mut last = 0;
    for (place, other) in order.iter().enumerate() {
        if same_layer(*other, layer) {
            last = place;
        }
    }
    last
}

// Whether a layer stands at a place above `low` and below `high`.
fn stands_within(order: &[LayerRef], low: usize, high: usize, layer: LayerRef) -> bool
    requires { high ≤ length order.now }
    ensures { IsTrue result ↔ StandsWithin order.now low high layer }
{
    for place in low..high {
        if place != low && same_layer(order[place], layer) {
            return true;
        }
    }
    false
}

fn same_layer(a: LayerRef, b: LayerRef) -> bool
    ensures { IsTrue result ↔ (a ≡ b) }
{
    match (a, b) {
        (LayerRef::Routing(i), LayerRef::Routing(j)) => i == j,
        (LayerRef::Cut(i), LayerRef::Cut(j)) => i == j,
        _ => false,
    }
}
