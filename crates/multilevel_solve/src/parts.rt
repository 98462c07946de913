//! The parts that a network is solved in. One without clusters is solved as a whole. Of one that has some the network
//! *between* the clusters is solved, in which each of them is one node, and the network *inside* them, in which each
//! hangs at one of its nodes. In each of the two the conductances differ by far less than in the whole. Each resistor
//! is in one of them alone: inside where both ends are in one cluster, or where no voltage is free between these ends.

use crate::clusters::find_clusters;
use grid_net::Net;
use solve_levels::{Column, Words};

/// Which part of the network it is.
#[derive(Clone, Copy, PartialEq, Eq)]
pub enum Share {
    Whole,
    Between,
    Inside,
}

/// In place of the number of a node: it is ground.
const GROUND: u32 = u32::MAX;

/// In place of the number of a cluster: a pad is in it, so that it is ground.
const PADDED: u64 = u64::MAX;

/// The numbers of the nodes in the parts: one word for each node, that between the clusters above that inside them.
#[derive(Clone, Copy)]
struct Numbers {
    list: Column,
}

impl Numbers {
    #[inline(always)]
    fn between(self, words: &Words, node: u32) -> u32 {
        (self.list.at(words, node) >> 32) as u32
    }

    #[inline(always)]
    fn inside(self, words: &Words, node: u32) -> u32 {
        self.list.number_at(words, node)
    }

    fn put(self, words: &mut Words, node: u32, between: u32, inside: u32) {
        let word = ((between as u64) << 32) | inside as u64;
        self.list.put(words, node, word);
    }
}

/// A part of a network: how many nodes of its own it has, and for each of them the number of a pad that is near, plus 1,
/// or 0.
#[derive(Clone, Copy)]
pub struct Part {
    pub share: Share,
    pub nodes: u32,
    pub near: Column,
    numbers: Numbers,
}

impl Part {
    /// The number of a node in the part, which is that of ground where it has none of its own.
    #[inline(always)]
    pub fn number(&self, words: &Words, node: u32) -> u32 {
        let number = match self.share {
            Share::Whole => node,
            Share::Between => self.numbers.between(words, node),
            Share::Inside => self.numbers.inside(words, node),
        };
        number.min(self.nodes)
    }

    /// Whether a resistor between two nodes can be in the part.
    #[inline(always)]
    pub fn has(&self, words: &Words, a: u32, b: u32) -> bool {
        match self.share {
            Share::Whole | Share::Between => true,
            Share::Inside => self.numbers.between(words, a) == self.numbers.between(words, b),
        }
    }

    /// The whole network. `None` where there is no room.
    pub fn whole(words: &mut Words, net: &Net) -> Option<Part> {
        let near = Column::cut(words, net.nodes())?;
        Some(Part {
            share: Share::Whole,
            nodes: net.nodes(),
            near,
            numbers: Numbers { list: Column::NONE },
        })
    }

    // Between or inside the clusters.
    fn of(words: &mut Words, share: Share, nodes: u32, numbers: Numbers) -> Option<Part> {
        let near = Column::cut(words, nodes)?;
        near.fill(words, nodes, 0);
        Some(Part {
            share,
            nodes,
            near,
            numbers,
        })
    }
}

/// The numbers that are being given.
#[derive(Clone, Copy)]
struct Numbering {
    /// For each node its cluster, and then its numbers.
    list: Column,
    /// For each cluster 0, or its number plus 1.
    given: Column,
    between: u32,
    inside: u32,
}

impl Numbering {
    // The next number between the clusters.
    fn next(&mut self) -> u32 {
        let number = self.between;
        self.between = number.wrapping_add(1);
        number
    }

    // The next number inside the clusters.
    fn next_inside(&mut self) -> u32 {
        let number = self.inside;
        self.inside = number.wrapping_add(1);
        number
    }

    // The numbers of a node that is no pad. The first node of a cluster is the one at which it hangs; where the cluster
    // has a pad, it hangs at that.
    fn number(&mut self, words: &mut Words, node: u32) -> (u32, u32) {
        let cluster = self.list.number_at(words, node);
        if cluster == 0 {
            return (self.next(), GROUND);
        }
        let given = self.given.at(words, cluster.wrapping_sub(1));
        if given == PADDED {
            return (GROUND, self.next_inside());
        }
        if given == 0 {
            let number = self.next();
            let mark = (number as u64).wrapping_add(1);
            self.given.put(words, cluster.wrapping_sub(1), mark);
            return (number, GROUND);
        }
        let number = (given.wrapping_sub(1) & 0xffff_ffff) as u32;
        (number, self.next_inside())
    }

    // Marks the clusters that have a pad.
    fn mark_pads(&self, words: &mut Words, net: &Net) {
        for pad in net.pads() {
            let cluster = self.list.number_at(words, pad.node);
            if cluster != 0 {
                self.given.put(words, cluster.wrapping_sub(1), PADDED);
            }
        }
    }

    // Gives all nodes their numbers, in the order of the nodes.
    fn give(&mut self, words: &mut Words, net: &Net) {
        let numbers = Numbers { list: self.list };
        for node in 0..net.nodes() {
            let (between, inside) = if net.pad(node).is_some() {
                (GROUND, GROUND)
            } else {
                self.number(words, node)
            };
            numbers.put(words, node, between, inside);
        }
    }
}

/// The parts between and inside the clusters of a network. `None` where it has none, or where there is no room.
pub fn split(words: &mut Words, net: &Net) -> Option<(Part, Part)> {
    let list = find_clusters(words, net)?;
    let floor = words.low();
    let given = Column::cut(words, net.nodes())?;
    given.fill(words, net.nodes(), 0);
    let mut numbering = Numbering {
        list,
        given,
        between: 0,
        inside: 0,
    };
    numbering.mark_pads(words, net);
    numbering.give(words, net);
    words.release(floor);
    let numbers = Numbers { list };
    let between = Part::of(words, Share::Between, numbering.between, numbers)?;
    let inside = Part::of(words, Share::Inside, numbering.inside, numbers)?;
    Some((between, inside))
}
