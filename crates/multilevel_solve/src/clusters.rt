//! Clusters: nodes that are tied to each other far more strongly than any of them is to a node outside, as those of a
//! shorted patch of metal.
//!
//! Resistors join their ends in the order of the bits of their resistances, the least first. A component that no resistor
//! joins to another one for as many bits as the gap is a cluster. So none is part of another one: of two that would be,
//! the one that is tied more strongly counts.

use crate::assembly::ohms_width;
use grid_net::{Net, Resistor};
use solve_levels::{Column, Words};

/// By how many bits each resistance that leaves a cluster passes all that tie it together.
const GAP: u32 = 13;

/// The most bits of a resistance.
const WIDEST: u32 = 40;

/// In place of a component's bits: a cluster is part of it, and it becomes none.
const CLOSED: u64 = 255;

/// A node of a component. Its word has, from the low end, 32 bits of the next node, 8 of the rank and 8 of the bits.
#[derive(Clone, Copy)]
struct Member {
    /// The next node on the way to the component's head, which is its own next one.
    next: u32,
    /// At a head: no way to it has more nodes.
    rank: u64,
    /// At a head: the bits of the resistance that the component grew by last; 0 for a node alone.
    bits: u64,
}

impl Member {
    #[inline(always)]
    fn of(word: u64) -> Member {
        Member {
            next: (word & 0xffff_ffff) as u32,
            rank: (word >> 32) & 255,
            bits: (word >> 40) & 255,
        }
    }

    #[inline(always)]
    fn word(self) -> u64 {
        self.next as u64 | ((self.rank & 255) << 32) | ((self.bits & 255) << 40)
    }
}

/// The components that the resistors have made so far.
#[derive(Clone, Copy)]
struct Components {
    members: Column,
}

impl Components {
    // Each node alone.
    fn cut(words: &mut Words, nodes: u32) -> Option<Components> {
        let members = Column::cut(words, nodes)?;
        for node in 0..nodes {
            members.put(words, node, node as u64);
        }
        Some(Components { members })
    }

    #[inline(always)]
    fn member(self, words: &Words, node: u32) -> Member {
        Member::of(self.members.at(words, node))
    }

    #[inline(always)]
    fn put(self, words: &mut Words, node: u32, member: Member) {
        self.members.put(words, node, member.word());
    }

    // The head of a node's component. Each step halves the way for the next time; no way has 64 nodes.
    fn head(self, words: &mut Words, node: u32) -> u32 {
        let mut at = node;
        for _ in 0..64 {
            let member = self.member(words, at);
            if member.next == at {
                return at;
            }
            let next = self.member(words, member.next).next;
            self.put(words, at, Member { next, ..member });
            at = next;
        }
        at
    }

    // A resistance of so many bits joins two nodes.
    fn join(self, words: &mut Words, a: u32, b: u32, bits: u32) {
        let (one, two) = (self.head(words, a), self.head(words, b));
        if one == two {
            return;
        }
        let (first, second) = (self.member(words, one), self.member(words, two));
        let is_closed = first.bits == CLOSED || second.bits == CLOSED;
        let (under, over) = if first.rank > second.rank {
            (two, one)
        } else {
            (one, two)
        };
        let grown = if first.rank == second.rank { 1 } else { 0 };
        let head = Member {
            next: over,
            rank: first.rank.max(second.rank).wrapping_add(grown),
            bits: if is_closed { CLOSED } else { bits as u64 },
        };
        self.put(words, under, Member { next: over, ..head });
        self.put(words, over, head);
    }

    // All resistances of so many bits join their ends.
    fn join_all(self, words: &mut Words, resistors: &[Resistor], bits: u32) {
        for resistor in resistors {
            if ohms_width(resistor.ohms) == bits {
                self.join(words, resistor.a, resistor.b, bits);
            }
        }
    }

    // The components that grew last by so many bits are clusters: each of their nodes gets the head's number, plus 1.
    // Answers whether there is one.
    fn name(self, words: &mut Words, nodes: u32, clusters: Column, bits: u32) -> bool {
        let mut is_any = false;
        for node in 0..nodes {
            let head = self.head(words, node);
            if self.member(words, head).bits == bits as u64 {
                clusters.put(words, node, (head as u64).wrapping_add(1));
                is_any = true;
            }
        }
        is_any
    }

    // Closes the components that grew last by so many bits.
    fn close(self, words: &mut Words, nodes: u32, bits: u32) {
        for node in 0..nodes {
            let member = self.member(words, node);
            if member.bits == bits as u64 {
                let closed = Member {
                    bits: CLOSED,
                    ..member
                };
                self.put(words, node, closed);
            }
        }
    }
}

/// The numbers of bits that the resistances between two nodes have, as a set.
fn widths_of(resistors: &[Resistor]) -> u64 {
    let mut widths: u64 = 0;
    for resistor in resistors {
        if resistor.a != resistor.b {
            widths |= 1u64.wrapping_shl(ohms_width(resistor.ohms));
        }
    }
    widths
}

/// Whether a set of numbers below 64 has one.
fn has(widths: u64, bits: u32) -> bool {
    widths.wrapping_shr(bits) & 1 == 1
}

/// Whether the greatest of a set of numbers below 64 passes the least one by the gap.
fn is_wide(widths: u64) -> bool {
    let spread = 63u32
        .saturating_sub(widths.leading_zeros())
        .saturating_sub(widths.trailing_zeros());
    spread >= GAP
}

/// Finds the clusters: each of their nodes gets a number that is that of one of them, plus 1, and each other node 0.
/// `None` where there is no cluster, or no room. Above the list the words are free again.
pub fn find_clusters(words: &mut Words, net: &Net) -> Option<Column> {
    let widths = widths_of(net.resistors());
    if !is_wide(widths) {
        return None;
    }
    let start = words.low();
    let clusters = Column::cut(words, net.nodes())?;
    clusters.fill(words, net.nodes(), 0);
    let floor = words.low();
    let components = Components::cut(words, net.nodes())?;
    let mut is_any = false;
    for bits in 1..WIDEST + 1 {
        if bits > GAP && has(widths, bits - GAP) && widths.wrapping_shr(bits) != 0 {
            is_any |= components.name(words, net.nodes(), clusters, bits - GAP);
            components.close(words, net.nodes(), bits - GAP);
        }
        if has(widths, bits) {
            components.join_all(words, net.resistors(), bits);
        }
    }
    if !is_any {
        words.release(start);
        return None;
    }
    words.release(floor);
    Some(clusters)
}
