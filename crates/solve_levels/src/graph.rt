//! A graph of conductances: the edges of each node as a list of words.

use crate::edges::Edge;
use crate::lists::{Column, Pairs};
use crate::words::Words;

/// Lists longer than this are only appended to. What is taken out, and what stands twice in them, is cleared when they
/// grow and at the end.
pub const LONG: u32 = 48;

/// In place of the room and the length of a list: the node is taken out.
const GONE: u64 = u64::MAX;

/// The edges of a node: where they begin, for how many there is room, and how many there are.
#[derive(Clone, Copy)]
pub struct EdgeList {
    pub start: usize,
    pub room: u32,
    pub len: u32,
}

impl EdgeList {
    /// The word of an edge.
    #[inline(always)]
    pub fn word(self, words: &Words, k: u32) -> u64 {
        words.word(self.start.wrapping_add(k as usize))
    }

    /// An edge.
    #[inline(always)]
    pub fn edge(self, words: &Words, k: u32) -> Edge {
        Edge::of(self.word(words, k))
    }

    /// Writes an edge.
    #[inline(always)]
    pub fn put(self, words: &mut Words, k: u32, edge: Edge) {
        words.put(self.start.wrapping_add(k as usize), edge.word());
    }
}

/// The nodes, with one more, *ground*, whose number is the number of nodes and which has no list. Each node has a mark:
/// a stamp above 32 bits of a number. A mark counts only while its stamp is the graph's.
#[derive(Clone, Copy)]
pub struct Graph {
    pub nodes: u32,
    pub lists: Pairs,
    pub marks: Column,
    pub stamp: u64,
}

impl Graph {
    /// The list of a node.
    #[inline(always)]
    pub fn list(self, words: &Words, node: u32) -> EdgeList {
        let (start, size) = self.lists.at(words, node);
        EdgeList {
            start: start as usize,
            room: (size >> 32) as u32,
            len: (size & 0xffff_ffff) as u32,
        }
    }

    /// Writes the list of a node.
    #[inline(always)]
    pub fn put_list(self, words: &mut Words, node: u32, list: EdgeList) {
        let size = ((list.room as u64) << 32) | list.len as u64;
        self.lists.put(words, node, list.start as u64, size);
    }

    /// Whether a node is taken out.
    #[inline(always)]
    pub fn is_gone(self, words: &Words, node: u32) -> bool {
        self.lists.at(words, node).1 == GONE
    }

    /// Takes a node out.
    #[inline(always)]
    pub fn take_out(self, words: &mut Words, node: u32) {
        self.lists.put(words, node, 0, GONE);
    }

    /// The number that a node is marked with, where its mark counts.
    #[inline(always)]
    pub fn marked(self, words: &Words, node: u32) -> Option<u32> {
        let mark = self.marks.at(words, node);
        if mark >> 32 == self.stamp {
            Some((mark & 0xffff_ffff) as u32)
        } else {
            None
        }
    }

    /// Marks a node.
    #[inline(always)]
    pub fn mark(self, words: &mut Words, node: u32, number: u32) {
        self.marks
            .put(words, node, (self.stamp << 32) | number as u64);
    }

    /// Appends an edge to the list that is being made at the low end, or adds its conductance to the edge to the same
    /// node. False where there is no room.
    #[inline(always)]
    pub fn collect(self, words: &mut Words, list: &mut EdgeList, edge: Edge) -> bool {
        if let Some(k) = self.marked(words, edge.node) {
            let sum = list.edge(words, k).conductance.plus(edge.conductance);
            list.put(
                words,
                k,
                Edge {
                    node: edge.node,
                    conductance: sum,
                },
            );
            return true;
        }
        self.mark(words, edge.node, list.len);
        list.len = list.len.saturating_add(1);
        words.push(edge.word())
    }

    /// Writes an edge behind the last one of a node's list.
    #[inline(always)]
    pub fn append(self, words: &mut Words, node: u32, edge: Edge) {
        let mut list = self.list(words, node);
        if list.len < list.room {
            list.put(words, list.len, edge);
            list.len = list.len.saturating_add(1);
            self.put_list(words, node, list);
        }
    }

    /// Clears a list: edges to nodes that are taken out go, and those to one node are added up.
    pub fn tidy(&mut self, words: &mut Words, node: u32) -> EdgeList {
        self.stamp = self.stamp.wrapping_add(1);
        let whole = self.list(words, node);
        let mut kept = EdgeList { len: 0, ..whole };
        for k in 0..whole.len {
            let edge = whole.edge(words, k);
            if edge.node == self.nodes || !self.is_gone(words, edge.node) {
                self.keep(words, &mut kept, edge);
            }
        }
        self.put_list(words, node, kept);
        kept
    }

    // Keeps an edge of a list that is cleared.
    fn keep(self, words: &mut Words, kept: &mut EdgeList, edge: Edge) {
        if let Some(k) = self.marked(words, edge.node) {
            let sum = kept.edge(words, k).conductance.plus(edge.conductance);
            kept.put(
                words,
                k,
                Edge {
                    node: edge.node,
                    conductance: sum,
                },
            );
        } else {
            self.mark(words, edge.node, kept.len);
            kept.put(words, kept.len, edge);
            kept.len = kept.len.saturating_add(1);
        }
    }

    /// How many words it takes at most to make room for so many more edges in a node's list.
    #[inline(always)]
    pub fn needed(self, words: &Words, node: u32, more: u32) -> usize {
        let list = self.list(words, node);
        let len = list.len.saturating_add(more);
        if len <= list.room {
            return 0;
        }
        len as usize + len as usize / 2 + 1
    }

    /// Makes room for so many more edges in a node's list. False where the words are full.
    pub fn widen(&mut self, words: &mut Words, node: u32, more: u32) -> bool {
        let mut list = self.list(words, node);
        if list.len.saturating_add(more) <= list.room {
            return true;
        }
        if list.len > LONG {
            list = self.tidy(words, node);
            if list.len.saturating_add(more) <= list.room / 4 * 3 {
                return true;
            }
        }
        let needed = list.len.saturating_add(more);
        let room = needed.saturating_add(needed / 2).saturating_add(1);
        self.move_list(words, node, list, room)
    }

    // Copies a list to the low end, with more room.
    fn move_list(self, words: &mut Words, node: u32, list: EdgeList, room: u32) -> bool {
        let to = words.low();
        if words.room() < room as usize {
            return false;
        }
        words.release(to.saturating_add(room as usize));
        for k in 0..list.len {
            let word = list.word(words, k);
            words.put(to.wrapping_add(k as usize), word);
        }
        let moved = EdgeList {
            start: to,
            room,
            len: list.len,
        };
        self.put_list(words, node, moved);
        true
    }
}
