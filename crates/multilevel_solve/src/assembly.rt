//! The network as a graph of conductances, or a part of it.

use crate::parts::{Part, Share};
use grid_net::{Net, Resistor};
use solve_levels::{Column, Edge, EdgeList, Graph, Left, Level, Pairs, Plan, Scaled, Words};

/// In place of a node's mark: a pad stands there.
const PAD: u64 = u64::MAX;

/// The inverse of a resistance of so many bits, in units of `2^-(62 + bits)`: one short division and a step of Newton.
pub fn inverse_of(ohms: i128) -> u64 {
    let r = ohms_word(ohms);
    let top = r.wrapping_shl(r.leading_zeros());
    let quotient = (1u64 << 63).checked_div(top >> 32).unwrap_or(0);
    let first = quotient.wrapping_shl(31);
    let product = (top as u128).wrapping_mul(first as u128).cast_signed();
    let error = (1i128 << 126).wrapping_sub(product) >> 64;
    let change = (first as i128).wrapping_mul(error) >> 62;
    first.wrapping_add((change.cast_unsigned() & 0xffff_ffff_ffff_ffff) as u64)
}

/// A resistance as a word; it has at most 40 bits.
#[inline(always)]
pub fn ohms_word(ohms: i128) -> u64 {
    ((ohms.cast_unsigned() & 0xffff_ffff_ffff_ffff) as u64).max(1)
}

/// How many bits a resistance has.
#[inline(always)]
pub fn ohms_width(ohms: i128) -> u32 {
    64u32.wrapping_sub(ohms_word(ohms).leading_zeros())
}

/// The same, as an exponent.
#[inline(always)]
pub fn ohms_bits(ohms: i128) -> i64 {
    ohms_width(ohms) as i64
}

/// The conductance of a resistance with this inverse.
fn conductance(ohms: i128, inverse: u64) -> Scaled {
    let mantissa = inverse >> 32;
    let exponent = (-30i64).wrapping_sub(ohms_bits(ohms));
    if mantissa >> 31 == 0 {
        Scaled {
            mantissa: mantissa << 1,
            exponent: exponent.wrapping_sub(1),
        }
    } else {
        Scaled { mantissa, exponent }
    }
}

/// The inverses of all resistances. `None` where there is no room.
pub fn invert(words: &mut Words, resistors: &[Resistor]) -> Option<Column> {
    let inverses = Column::cut_long(words, resistors.len())?;
    let mut k: u32 = 0;
    for resistor in resistors {
        inverses.put(words, k, inverse_of(resistor.ohms));
        k = k.wrapping_add(1);
    }
    Some(inverses)
}

/// A part whose graph is being made.
#[derive(Clone, Copy)]
struct Assembly<'a> {
    net: &'a Net,
    inverses: Column,
    part: Part,
    graph: Graph,
    /// For each node the next one of its cluster, plus 1, or 0: between the clusters.
    followers: Option<Column>,
}

/// Whether a pad stands at a node.
#[inline(always)]
pub fn is_pad(net: &Net, node: u32) -> bool {
    node < net.nodes() && net.pad(node).is_some()
}

/// Clears the marks, and marks the pads where the part is the whole.
fn clear(words: &mut Words, net: &Net, part: &Part, graph: &Graph) {
    part.near.fill(words, part.nodes, 0);
    graph.marks.fill(words, part.nodes.wrapping_add(1), 0);
    if part.share == Share::Whole {
        for pad in net.pads() {
            graph.marks.put(words, pad.node, PAD);
        }
    }
}

/// Lists the nodes of each cluster, in their order. `None` where there is no room.
fn follow(words: &mut Words, net: &Net, part: &Part) -> Option<Column> {
    let followers = Column::cut(words, net.nodes())?;
    let firsts = Column::cut(words, part.nodes)?;
    firsts.fill(words, part.nodes, 0);
    for node in (0..net.nodes()).rev() {
        let number = part.number(words, node);
        if number < part.nodes {
            let first = firsts.at(words, number);
            followers.put(words, node, first);
            firsts.put(words, number, (node as u64).wrapping_add(1));
        }
    }
    Some(followers)
}

impl Assembly<'_> {
    // The other end of a resistor at a node with this number of its own, where the resistor is in the part.
    #[inline(always)]
    fn end(&self, words: &Words, node: u32, own: u32, other: u32) -> Option<u32> {
        let end = if self.part.share == Share::Whole {
            if self.graph.marks.at(words, other) == PAD {
                self.graph.nodes
            } else {
                other
            }
        } else if self.part.has(words, node, other) {
            self.part.number(words, other)
        } else {
            own
        };
        if end == own { None } else { Some(end) }
    }

    // Adds the resistors of a node to a list. All pads are ground. `None` where there is no room.
    fn collect(
        &self,
        words: &mut Words,
        around: &[u32],
        node: u32,
        own: u32,
        list: &mut EdgeList,
    ) -> Option<()> {
        for place in around {
            let Some(resistor) = self.net.resistors().get(*place as usize) else {
                continue;
            };
            let other = resistor.end_across(node);
            let Some(end) = self.end(words, node, own, other) else {
                continue;
            };
            if end == self.graph.nodes && is_pad(self.net, other) {
                self.part
                    .near
                    .put(words, own, (other as u64).wrapping_add(1));
            }
            let inverse = self.inverses.at(words, *place);
            let edge = Edge {
                node: end,
                conductance: conductance(resistor.ohms, inverse),
            };
            if !self.graph.collect(words, list, edge) {
                return None;
            }
        }
        Some(())
    }

    // Adds the resistors of the nodes that follow one in its cluster.
    fn collect_followers(
        &self,
        words: &mut Words,
        followers: Column,
        node: u32,
        own: u32,
        list: &mut EdgeList,
    ) -> Option<()> {
        let mut next = followers.number_at(words, node);
        for _ in 0..self.net.nodes() {
            if next == 0 || next > self.net.nodes() {
                return Some(());
            }
            let node = next - 1;
            self.collect(words, self.net.around(node), node, own, list)?;
            next = followers.number_at(words, node);
        }
        Some(())
    }

    // The resistors of a node, or of its cluster, added up, as a list at the low end. `None` where there is no room.
    fn list(&mut self, words: &mut Words, around: &[u32], node: u32, own: u32) -> Option<()> {
        self.graph.stamp = own as u64 + 1;
        let mut list = EdgeList {
            start: words.low(),
            room: 0,
            len: 0,
        };
        self.collect(words, around, node, own, &mut list)?;
        if let Some(followers) = self.followers {
            self.collect_followers(words, followers, node, own, &mut list)?;
        }
        list.room = list.len;
        self.graph.put_list(words, own, list);
        Some(())
    }

    // Whether the next list is that of this node: in the whole where it is no pad, and in the other parts where it is
    // the first one with its number.
    fn is_next(&self, node: u32, own: u32, len: u32) -> bool {
        if self.part.share == Share::Whole {
            return !is_pad(self.net, node);
        }
        own == len && own < self.part.nodes
    }
}

/// Makes the graph of a part, of whose nodes those are taken that are no pads. `None` where there is no room.
pub fn assemble(words: &mut Words, net: &Net, inverses: Column, part: Part) -> Option<Plan> {
    let nodes = part.nodes;
    let level = Level::cut(words, nodes)?;
    let list = Column::cut(words, nodes)?;
    let graph = Graph {
        nodes,
        lists: Pairs::cut(words, nodes as usize)?,
        marks: Column::cut(words, nodes.wrapping_add(1))?,
        stamp: 0,
    };
    clear(words, net, &part, &graph);
    let followers = if part.share == Share::Between {
        Some(follow(words, net, &part)?)
    } else {
        None
    };
    let mut assembly = Assembly {
        net,
        inverses,
        part,
        graph,
        followers,
    };
    let mut len: u32 = 0;
    for node in 0..net.nodes() {
        let own = part.number(words, node);
        if assembly.is_next(node, own, len) {
            assembly.list(words, net.around(node), node, own)?;
            list.put(words, len, own as u64);
            len = len.wrapping_add(1);
        }
    }
    assembly.graph.stamp = nodes as u64 + 1;
    Some(Plan {
        graph: assembly.graph,
        all: Left { list, len },
        level,
    })
}
