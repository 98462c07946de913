//! Which layers lie between two, and what stands there.
ghost use Rattle.std.specs.Prelude.{◌↔◌, IsTrue, ◌<◌, length};
ghost use Rattle.grid_stacks.specs.Crossing.{IsObstructed, LiesBetween};
ghost use Rattle.plain_drawing.specs.inside.Sites.{StandsBelow, StandsAbove, AreAround, Obstructs};

use crate::same::same_layer;
use geom_rect::{Rect, overlaps};
use grid_pieces::Block;
use grid_stacks::Connect;
use lef_tech::{LayerRef, Tech};

// Whether a blockage of a layer strictly between those of the connect overlaps the rectangle, not grown.
pub(crate) fn is_obstructed(tech: &Tech, connect: Connect, blocks: &[Block], rect: Rect) -> bool
    ensures { IsTrue result ↔ IsObstructed tech.now connect blocks.now rect }
{
    for block in blocks {
        if obstructs(tech, connect, *block, rect) {
            return true;
        }
    }
    false
}

fn obstructs(tech: &Tech, connect: Connect, block: Block, rect: Rect) -> bool
    ensures { IsTrue result ↔ Obstructs tech.now connect rect block }
{
    lies_between(tech, connect.from, connect.to, block.layer) && overlaps(rect, block.plain)
}

// Whether a layer stands strictly between two routing layers.
fn lies_between(tech: &Tech, from: u32, to: u32, layer: LayerRef) -> bool
    ensures { IsTrue result ↔ LiesBetween tech.now from to layer }
{
    let order = tech.order.as_slice();
    for place in 0..order.len() {
        if same_layer(order[place], layer) && is_around(order, from, to, place) {
            return true;
        }
    }
    false
}

// Whether the two routing layers stand below and above a place.
fn is_around(order: &[LayerRef], from: u32, to: u32, place: usize) -> bool
    requires { place < length order.now }
    ensures { IsTrue result ↔ AreAround order.now from to place }
{
    stands_below(order, LayerRef::Routing(from), place)
        && stands_above(order, LayerRef::Routing(to), place)
}

fn stands_below(order: &[LayerRef], layer: LayerRef, place: usize) -> bool
    requires { place < length order.now }
    ensures { IsTrue result ↔ StandsBelow order.now layer place }
{
    for below in 0..place {
        if same_layer(order[below], layer) {
            return true;
        }
    }
    false
}

fn stands_above(order: &[LayerRef], layer: LayerRef, place: usize) -> bool
    requires { place < length order.now }
    ensures { IsTrue result ↔ StandsAbove order.now layer place }
{
    for above in place + 1..order.len() {
        if same_layer(order[above], layer) {
            return true;
        }
    }
    false
}
