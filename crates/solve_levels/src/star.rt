//! The star of a node: its few edges, beside each other.

use crate::edges::{Edge, Sum};
use crate::graph::{Graph, LONG};
use crate::numbers::Scaled;
use crate::words::Words;

/// An edge of the star's node: the other end, its conductance, and what part of the sum it has.
#[derive(Clone, Copy)]
pub struct Arm {
    pub edge: Edge,
    pub share: Scaled,
}

/// A node with at most sixteen edges.
#[derive(Clone, Copy)]
pub struct Star {
    pub node: u32,
    pub len: u32,
    /// 1 over the sum of its conductances.
    pub inverse: Scaled,
    arms: [Arm; 16],
}

/// An arm that stands where there is none.
const NO_ARM: Arm = Arm {
    edge: Edge {
        node: 0,
        conductance: Scaled::ZERO,
    },
    share: Scaled::ZERO,
};

impl Star {
    /// The most arms of a star.
    pub const MOST: u32 = 16;

    /// The star of a node, of at most sixteen edges.
    pub fn of(words: &Words, graph: &Graph, node: u32) -> Star {
        let list = graph.list(words, node);
        let sum = Sum::of(words, list.start, list.len);
        let mut arms = [NO_ARM; 16];
        for k in 0..list.len.min(Star::MOST) {
            let edge = list.edge(words, k);
            let share = sum.share(edge);
            arms[(k & 15) as usize] = Arm { edge, share };
        }
        Star {
            node,
            len: list.len.min(Star::MOST),
            inverse: sum.inverse,
            arms,
        }
    }

    /// An arm.
    #[inline(always)]
    pub fn arm(&self, k: u32) -> Arm {
        self.arms[(k & 15) as usize]
    }

    /// The number of the arm with the greatest share.
    pub fn greatest(&self) -> u32 {
        let mut first = 0;
        for k in 1..self.len {
            if self.arm(k).share.exceeds(self.arm(first).share) {
                first = k;
            }
        }
        first
    }

    /// The conductance between the ends of two arms, once the node is taken out.
    #[inline(always)]
    pub fn between(&self, i: u32, j: u32) -> Scaled {
        self.arm(i).edge.conductance.times(self.arm(j).share)
    }

    /// How many words it takes at most to take the node out: a row, and wider lists at the ends of the arms.
    pub fn needed(&self, words: &Words, graph: &Graph) -> usize {
        let mut needed = self.len as usize;
        for k in 0..self.len {
            let end = self.arm(k).edge.node;
            if end != graph.nodes {
                needed = needed.saturating_add(graph.needed(words, end, self.len));
            }
        }
        needed
    }

    /// Makes room in the long lists at the ends of the arms. False where the words are full.
    pub fn has_room(&self, words: &mut Words, graph: &mut Graph) -> bool {
        for k in 0..self.len {
            let end = self.arm(k).edge.node;
            if end != graph.nodes && graph.list(words, end).len > LONG {
                if !graph.widen(words, end, self.len) {
                    return false;
                }
            }
        }
        true
    }

    /// Marks the ends of the arms with the arms' numbers.
    pub fn mark(&self, words: &mut Words, graph: &mut Graph) {
        graph.stamp = graph.stamp.wrapping_add(1);
        for k in 0..self.len {
            graph.mark(words, self.arm(k).edge.node, k);
        }
    }
}
