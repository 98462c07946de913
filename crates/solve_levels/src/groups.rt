//! Groups of rows that are joined strongly, and the graph of the groups.

use crate::edges::{Edge, entry_share, node_of};
use crate::elimination::Left;
use crate::graph::{EdgeList, Graph};
use crate::level::Rest;
use crate::lists::{Column, Pairs};
use crate::words::Words;

/// The most rows of a group when it is opened.
const GREATEST: u64 = 16;

/// An edge is strong where it is at least this part of the strongest one at its end.
const STRONG: u64 = 16;

/// In place of the number of a group: the row is in none.
const NONE: u64 = u64::MAX;

/// The groups that are being made.
#[derive(Clone, Copy)]
struct Grouping {
    rest: Rest,
    /// For each row the number of its group.
    groups: Column,
    /// For each group how many rows it has.
    sizes: Column,
    /// How many groups there are.
    count: u32,
}

/// A graph of groups, its nodes, and for each row the number of its group.
#[derive(Clone, Copy)]
pub struct Grouped {
    pub graph: Graph,
    pub all: Left,
    pub groups: Column,
}

impl Grouping {
    fn is_free(&self, words: &Words, row: u32) -> bool {
        self.groups.at(words, row) == NONE
    }

    fn put(&self, words: &mut Words, row: u32, group: u64) {
        self.groups.put(words, row, group);
    }

    // The words of a row's entries: the first one, and how many there are.
    #[inline(always)]
    fn entries(&self, words: &Words, row: u32) -> (usize, usize) {
        let (start, _) = self.rest.start(words, row);
        let end = self.rest.end(words, row);
        let first = start.saturating_mul(2);
        (first, end.saturating_sub(start).saturating_mul(2))
    }

    // The greatest share of a row's entries, and whose it is.
    fn strongest(&self, words: &Words, row: u32) -> (u64, u32) {
        let (start, len) = self.entries(words, row);
        let mut most = 0;
        let mut nearest = row;
        for k in 0..len {
            let entry = words.word(start.wrapping_add(k));
            if entry_share(entry) > most {
                most = entry_share(entry);
                nearest = node_of(entry);
            }
        }
        (most, nearest)
    }

    // Whether the edge from a row to another one is strong among those of the row.
    fn is_strong(&self, words: &Words, row: u32, other: u32) -> bool {
        let (start, len) = self.entries(words, row);
        let mut most = 0;
        let mut this = 0;
        for k in 0..len {
            let entry = words.word(start.wrapping_add(k));
            most = most.max(entry_share(entry));
            if node_of(entry) == other {
                this = this.max(entry_share(entry));
            }
        }
        this >= most / STRONG
    }

    // A row opens a group with its strongest neighbour, or joins that one's group.
    fn open(&mut self, words: &mut Words, row: u32) {
        let (most, nearest) = self.strongest(words, row);
        if !self.is_free(words, nearest) {
            self.join(words, row, nearest);
            return;
        }
        let group = self.count as u64;
        self.put(words, row, group);
        let mut size = 1;
        if nearest != row {
            self.put(words, nearest, group);
            size = 2;
        }
        size = self.take_neighbours(words, row, (most / STRONG).max(1), size);
        self.sizes.put(words, self.count, size);
        self.count = self.count.saturating_add(1);
    }

    // A row joins the group of another one, unless that is full.
    fn join(&self, words: &mut Words, row: u32, other: u32) {
        let group = self.groups.number_at(words, other);
        let size = self.sizes.at(words, group);
        if size < GREATEST {
            self.put(words, row, group as u64);
            self.sizes.put(words, group, size.saturating_add(1));
        }
    }

    // The free neighbours whose edge is strong seen from both ends join the group of a row.
    fn take_neighbours(&self, words: &mut Words, row: u32, bound: u64, size: u64) -> u64 {
        let (start, len) = self.entries(words, row);
        let mut size: u64 = size;
        for k in 0..len {
            let entry = words.word(start.wrapping_add(k));
            let other = node_of(entry);
            if entry_share(entry) >= bound
                && size < GREATEST
                && self.is_free(words, other)
                && self.is_strong(words, other, row)
            {
                self.put(words, other, self.count as u64);
                size = size.saturating_add(1);
            }
        }
        size
    }

    // A row that is left joins its strongest group; one that has none is a group of its own.
    fn settle(&mut self, words: &mut Words, row: u32) {
        let (start, len) = self.entries(words, row);
        let mut most = 0;
        let mut group = NONE;
        for k in 0..len {
            let entry = words.word(start.wrapping_add(k));
            let other = self.groups.at(words, node_of(entry));
            if other != NONE && entry_share(entry) > most {
                most = entry_share(entry);
                group = other;
            }
        }
        if group == NONE {
            group = self.count as u64;
            self.count = self.count.saturating_add(1);
        }
        self.put(words, row, group);
    }

    // Each row finds its group.
    fn group_all(&mut self, words: &mut Words) {
        for row in 0..self.rest.len {
            if self.is_free(words, row) {
                self.open(words, row);
            }
        }
        for row in 0..self.rest.len {
            if self.is_free(words, row) {
                self.settle(words, row);
            }
        }
    }
}

/// Groups the rows along strong edges, and makes the graph of the groups, whose lists are those of the graph, added up.
/// It lies at the high end. `None` where there is no room.
pub fn group(words: &mut Words, graph: &Graph, rest: &Rest) -> Option<Grouped> {
    let groups = Column::cut_high(words, rest.len)?;
    groups.fill(words, rest.len, NONE);
    let mut grouping = Grouping {
        rest: *rest,
        groups,
        sizes: Column::cut(words, rest.len)?,
        count: 0,
    };
    grouping.group_all(words);
    let count = grouping.count;
    let lists = Pairs::cut_high(words, count as usize)?;
    let marks = Column::cut_high(words, count.saturating_add(1))?;
    let list = Column::cut_high(words, count)?;
    marks.fill(words, count.saturating_add(1), 0);
    let members = members_of(words, &grouping)?;
    let mut coarse = Graph {
        nodes: count,
        lists,
        marks,
        stamp: 0,
    };
    let first = words.low();
    for number in 0..count {
        list.put(words, number, number as u64);
        collect_group(words, graph, &mut coarse, &grouping, members, number)?;
    }
    lift(words, &coarse, first)?;
    coarse.stamp = count as u64 + 1;
    Some(Grouped {
        graph: coarse,
        all: Left { list, len: count },
        groups,
    })
}

/// The rows of each group, in order: for each group the place after its last row, and the rows.
#[derive(Clone, Copy)]
struct Members {
    ends: Column,
    rows: Column,
}

impl Members {
    // The place of a group's first row, and the place after its last one.
    fn places(self, words: &Words, group: u32) -> (u32, u32) {
        let end = self.ends.number_at(words, group);
        if group == 0 {
            return (0, end);
        }
        (self.ends.number_at(words, group - 1), end)
    }
}

/// Sorts the rows by their groups.
fn members_of(words: &mut Words, grouping: &Grouping) -> Option<Members> {
    let ends = Column::cut(words, grouping.count.saturating_add(1))?;
    let rows = Column::cut(words, grouping.rest.len)?;
    ends.fill(words, grouping.count.saturating_add(1), 0);
    for row in 0..grouping.rest.len {
        let next = grouping.groups.number_at(words, row).saturating_add(1);
        let size = ends.at(words, next);
        ends.put(words, next, size.saturating_add(1));
    }
    let mut place: u64 = 0;
    for group in 0..grouping.count.saturating_add(1) {
        place = place.saturating_add(ends.at(words, group));
        ends.put(words, group, place);
    }
    for row in 0..grouping.rest.len {
        let group = grouping.groups.number_at(words, row);
        let place = ends.number_at(words, group);
        rows.put(words, place, row as u64);
        ends.put(words, group, (place as u64).saturating_add(1));
    }
    Some(Members { ends, rows })
}

/// The edges of a group, added up, at the low end.
fn collect_group(
    words: &mut Words,
    graph: &Graph,
    coarse: &mut Graph,
    grouping: &Grouping,
    members: Members,
    group: u32,
) -> Option<()> {
    coarse.stamp = group as u64 + 1;
    let mut list = EdgeList {
        start: words.low(),
        room: 0,
        len: 0,
    };
    let (from, to) = members.places(words, group);
    for place in from..to {
        let row = members.rows.number_at(words, place);
        collect_row(words, graph, coarse, grouping, row, group, &mut list)?;
    }
    list.room = list.len;
    coarse.put_list(words, group, list);
    Some(())
}

/// The edges of a row, added to those of its group.
fn collect_row(
    words: &mut Words,
    graph: &Graph,
    coarse: &Graph,
    grouping: &Grouping,
    row: u32,
    group: u32,
    list: &mut EdgeList,
) -> Option<()> {
    let fine = graph.list(words, grouping.rest.numbers.number_at(words, row));
    for k in 0..fine.len {
        let edge = fine.edge(words, k);
        let end = if edge.node == graph.nodes {
            coarse.nodes
        } else {
            let row = graph.marks.number_at(words, edge.node);
            grouping.groups.number_at(words, row)
        };
        if end != group {
            let between = Edge {
                node: end,
                conductance: edge.conductance,
            };
            if !coarse.collect(words, list, between) {
                return None;
            }
        }
    }
    Some(())
}

/// Moves the lists of a graph from the low end, where they begin at this word, to the high end.
fn lift(words: &mut Words, graph: &Graph, first: usize) -> Option<()> {
    let total = words.low().saturating_sub(first);
    let to = words.cut_high(total)?;
    for k in 0..total {
        let word = words.word(first.wrapping_add(k));
        words.put(to.wrapping_add(k), word);
    }
    for node in 0..graph.nodes {
        let list = graph.list(words, node);
        let moved = EdgeList {
            start: list.start.wrapping_sub(first).wrapping_add(to),
            ..list
        };
        graph.put_list(words, node, moved);
    }
    Some(())
}
