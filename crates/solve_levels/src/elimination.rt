//! Exact elimination: a node of few edges is taken out, and its star becomes a mesh between its neighbours. Only
//! products and sums of positive numbers occur, so that nothing cancels, however the conductances differ.

use crate::edges::{Edge, LEAST_EXPONENT, share_word};
use crate::graph::{EdgeList, Graph, LONG};
use crate::level::Level;
use crate::lists::Column;
use crate::numbers::{Scaled, packed_scale};
use crate::star::{Arm, Star};
use crate::words::Words;

/// A graph whose nodes are taken out, and the level that keeps their shares.
#[derive(Drop)]
pub struct Taking<'a> {
    pub graph: &'a mut Graph,
    pub level: &'a mut Level,
    /// For each node the pad from which it takes its first voltage, plus 1, or 0: at the first level alone.
    pub near: Option<Column>,
}

/// The nodes that are left: the first ones of a list.
#[derive(Clone, Copy)]
pub struct Left {
    pub list: Column,
    pub len: u32,
}

/// Takes out nodes in sweeps, each with its greatest number of edges, while the words have room. Answers the nodes that
/// are left, at the head of the list.
pub fn eliminate(words: &mut Words, taking: &mut Taking, left: Left, limits: &[u32]) -> Left {
    let mut left = left;
    for limit in limits {
        left = sweep(words, taking, left, (*limit).min(Star::MOST));
    }
    taking.level.bottom = words.high();
    left
}

/// One sweep.
fn sweep(words: &mut Words, taking: &mut Taking, left: Left, limit: u32) -> Left {
    let mut kept: u32 = 0;
    for k in 0..left.len {
        let node = left.list.number_at(words, k);
        if !is_taken(words, taking, node, limit) {
            left.list.put(words, kept, node as u64);
            kept = kept.saturating_add(1);
        }
    }
    Left {
        list: left.list,
        len: kept,
    }
}

/// Takes a node out where it has few edges. False where it stays.
fn is_taken(words: &mut Words, taking: &mut Taking, node: u32, limit: u32) -> bool {
    let len = taking.graph.list(words, node).len;
    if len > limit {
        return false;
    }
    let star = Star::of(words, taking.graph, node);
    if star.needed(words, taking.graph) > words.room() || !star.has_room(words, taking.graph) {
        return false;
    }
    if !write_row(words, taking.level, &star) {
        return false;
    }
    taking.graph.take_out(words, node);
    if star.len == 2 {
        link(words, taking, &star);
    } else {
        mesh(words, taking, &star);
    }
    true
}

/// Writes the shares of a star at the high end: the greatest one first, so that it is the last one from there.
fn write_row(words: &mut Words, level: &mut Level, star: &Star) -> bool {
    let first = star.greatest();
    for k in 0..star.len {
        let turn = if k == 0 {
            first
        } else if k == first {
            0
        } else {
            k
        };
        let arm = star.arm(turn);
        if !words.push_high(share_word(arm.edge.node, arm.share)) {
            return false;
        }
    }
    let scale = packed_scale(star.inverse.mantissa, star.inverse.exponent.wrapping_neg());
    let head = ((star.node as u64) << 32) | star.len as u64;
    level.order.put(words, level.taken, head, scale);
    level.taken = level.taken.saturating_add(1);
    true
}

/// The nearest pad of a node goes on to a neighbour that has none.
#[inline(always)]
fn spread(words: &mut Words, near: Option<Column>, node: u32, neighbour: u32) {
    if let Some(pads) = near {
        let pad = pads.at(words, node);
        if pad != 0 && pads.at(words, neighbour) == 0 {
            pads.put(words, neighbour, pad);
        }
    }
}

/// Takes out a node of two edges: each end takes the other one in the node's place.
fn link(words: &mut Words, taking: &mut Taking, star: &Star) {
    let (a, b) = (star.arm(0), star.arm(1));
    let through = if a.share.exceeds(b.share) {
        star.between(0, 1)
    } else {
        star.between(1, 0)
    };
    link_end(words, taking, star.node, a, b.edge.node, through);
    link_end(words, taking, star.node, b, a.edge.node, through);
}

/// At one end of a node of two edges: the other end takes the node's place.
fn link_end(
    words: &mut Words,
    taking: &mut Taking,
    node: u32,
    arm: Arm,
    other: u32,
    through: Scaled,
) {
    let here = arm.edge.node;
    if here == taking.graph.nodes {
        return;
    }
    spread(words, taking.near, node, here);
    let edge = Edge {
        node: other,
        conductance: through,
    };
    let list = taking.graph.list(words, here);
    if list.len > LONG {
        if through.exponent >= LEAST_EXPONENT {
            taking.graph.append(words, here, edge);
        }
        return;
    }
    replace(words, taking.graph, here, list, node, edge);
}

/// Where the two ends of a node stand in a list.
fn places(words: &Words, list: EdgeList, node: u32, other: u32) -> (Option<u32>, Option<u32>) {
    let mut of_node = None;
    let mut of_other = None;
    for k in 0..list.len {
        let end = crate::edges::node_of(list.word(words, k));
        if end == node {
            of_node = Some(k);
        } else if end == other {
            of_other = Some(k);
        }
    }
    (of_node, of_other)
}

/// Puts an edge into a list in the place of the one to a node that is taken out.
fn replace(words: &mut Words, graph: &Graph, here: u32, list: EdgeList, node: u32, edge: Edge) {
    let (of_node, of_other) = places(words, list, node, edge.node);
    let Some(place) = of_node else {
        return;
    };
    let is_kept = edge.conductance.exponent >= LEAST_EXPONENT;
    if let Some(other) = of_other {
        if is_kept {
            let sum = list.edge(words, other).conductance.plus(edge.conductance);
            list.put(
                words,
                other,
                Edge {
                    node: edge.node,
                    conductance: sum,
                },
            );
        }
    } else if is_kept {
        list.put(words, place, edge);
        return;
    }
    let last = list.edge(words, list.len.saturating_sub(1));
    list.put(words, place, last);
    let shorter = EdgeList {
        len: list.len.saturating_sub(1),
        ..list
    };
    graph.put_list(words, here, shorter);
}

/// Turns the star of a node into a mesh.
fn mesh(words: &mut Words, taking: &mut Taking, star: &Star) {
    star.mark(words, taking.graph);
    for i in 0..star.len {
        let here = star.arm(i).edge.node;
        if here != taking.graph.nodes {
            spread(words, taking.near, star.node, here);
            mesh_end(words, taking.graph, star, i);
        }
    }
}

/// At one end of a star: the edges to the other ends.
fn mesh_end(words: &mut Words, graph: &mut Graph, star: &Star, i: u32) {
    let here = star.arm(i).edge.node;
    let mut met: u32 = 1 << (i & 15);
    if graph.list(words, here).len <= LONG {
        met |= add_up(words, graph, star, i);
    }
    let more = star.len.saturating_sub(met.count_ones());
    let list = graph.list(words, here);
    if list.len.saturating_add(more) > list.room && !graph.widen(words, here, more) {
        return;
    }
    for j in 0..star.len {
        if (met >> (j & 15)) & 1 == 0 {
            let through = star.between(i, j);
            if through.exponent >= LEAST_EXPONENT {
                let edge = Edge {
                    node: star.arm(j).edge.node,
                    conductance: through,
                };
                graph.append(words, here, edge);
            }
        }
    }
}

/// Adds to the edges that an end of a star has already to the other ends, and takes the star's node out of its list.
/// Answers the set of the arms that were met.
fn add_up(words: &mut Words, graph: &Graph, star: &Star, i: u32) -> u32 {
    let here = star.arm(i).edge.node;
    let mut list = graph.list(words, here);
    let mut met: u32 = 0;
    let mut k: u32 = 0;
    for _ in 0..list.len {
        let edge = list.edge(words, k);
        if edge.node == star.node {
            list.len = list.len.saturating_sub(1);
            let last = list.edge(words, list.len);
            list.put(words, k, last);
        } else {
            if let Some(j) = graph.marked(words, edge.node) {
                met |= 1 << (j & 15);
                add_through(words, list, k, edge, star.between(i, j));
            }
            k = k.saturating_add(1);
        }
    }
    graph.put_list(words, here, list);
    met
}

/// Adds a conductance to an edge, where it is not too small.
#[inline(always)]
fn add_through(words: &mut Words, list: EdgeList, k: u32, edge: Edge, through: Scaled) {
    if through.mantissa != 0 {
        let sum = Edge {
            node: edge.node,
            conductance: edge.conductance.plus(through),
        };
        list.put(words, k, sum);
    }
}
