//! All levels of a network, from the finest down.

use crate::cycle::{Effort, Solved, solve};
use crate::elimination::{Left, Taking, eliminate};
use crate::graph::Graph;
use crate::groups::{Grouped, group};
use crate::level::{Level, Rest};
use crate::lists::{Column, Pairs, Wides};
use crate::rest::make_rest;
use crate::words::Words;

/// The most levels.
const MOST: u32 = 24;

/// The most edges of a node that is taken out of the network, sweep by sweep.
const FIRST_LIMITS: [u32; 7] = [2, 2, 3, 3, 4, 5, 6];

/// The most edges of a node that is taken out of a graph of groups.
const LOWER_LIMITS: [u32; 8] = [2, 3, 4, 5, 6, 7, 8, 10];

/// A graph that is to become a level: its nodes, and the level, whose lists are cut.
#[derive(Clone, Copy)]
pub struct Plan {
    pub graph: Graph,
    pub all: Left,
    pub level: Level,
}

/// The levels that were made.
#[derive(Drop)]
pub struct Stack {
    levels: [Level; 24],
    len: u32,
}

/// A level that stands where there is none.
const NO_LEVEL: Level = Level {
    nodes: 0,
    order: Pairs::NONE,
    taken: 0,
    top: 0,
    bottom: 0,
    currents: Wides::NONE,
    volts: Wides::NONE,
    rest: Rest::NONE,
    groups: Column::NONE,
    floor: 0,
};

impl Stack {
    /// Makes the levels of a network, each of the groups of the one above, until elimination takes all nodes or there is
    /// no room. `near` has for each node the pad that is at it, plus 1, or 0; the pads go on to nodes that are near.
    pub fn build(words: &mut Words, first: Plan, near: Column) -> Stack {
        let mut stack = Stack {
            levels: [NO_LEVEL; 24],
            len: 0,
        };
        let mut plan = stack.push(words, first, &FIRST_LIMITS, Some(near));
        for _ in 1..MOST {
            let Some(next) = plan else {
                return stack;
            };
            plan = stack.push(words, next, &LOWER_LIMITS, None);
        }
        stack
    }

    // Makes a level, and plans the one below, if there is to be one.
    fn push(
        &mut self,
        words: &mut Words,
        plan: Plan,
        limits: &[u32],
        near: Option<Column>,
    ) -> Option<Plan> {
        let mut graph = plan.graph;
        let mut level = plan.level;
        let mut taking = Taking {
            graph: &mut graph,
            level: &mut level,
            near,
        };
        let left = eliminate(words, &mut taking, plan.all, limits);
        level.rest = make_rest(words, &mut graph, left)?;
        let grouped = group_rest(words, &graph, &level.rest);
        if let Some(groups) = grouped {
            level.groups = groups.groups;
        }
        words.release(level.floor);
        level.rest = level.rest.with_vectors(words)?;
        if let Some(place) = self.levels.get_mut(self.len as usize) {
            *place = level;
            self.len = self.len.saturating_add(1);
        }
        plan_below(words, grouped?)
    }

    /// The first level, if there is one.
    pub fn first(&self) -> Option<&Level> {
        if self.len == 0 {
            return None;
        }
        self.levels.first()
    }

    /// Solves the first level: its voltages from its currents.
    pub fn solve(&self, words: &mut Words, effort: Effort) -> Solved {
        match self.levels.get(..self.len as usize) {
            Some(levels) => solve(words, levels, effort),
            None => Solved { steps: 0, used: 0 },
        }
    }
}

/// The groups of a rest, where there is any, and where they are fewer than nine tenths of its rows.
fn group_rest(words: &mut Words, graph: &Graph, rest: &Rest) -> Option<Grouped> {
    if rest.len == 0 {
        return None;
    }
    let grouped = group(words, graph, rest)?;
    if 10 * grouped.all.len as u64 > 9 * rest.len as u64 {
        return None;
    }
    Some(grouped)
}

/// Cuts the lists of the level below.
fn plan_below(words: &mut Words, grouped: Grouped) -> Option<Plan> {
    let level = Level::cut(words, grouped.graph.nodes)?;
    Some(Plan {
        graph: grouped.graph,
        all: grouped.all,
        level,
    })
}
