//! What is kept between two proposals: the levels, and the last lists, both in the region.
//!
//! Nothing rests on it. Cells that were written over meanwhile, or a print that two networks share, spoil a proposal and
//! nothing else.

use crate::print::Print;
use crate::refinement::{Half, Levels, Refined, Refining};
use grid_net::Net;
use solve_levels::{Wides, Words};

/// The three lists that were made last, the latest one first.
#[derive(Clone, Copy)]
struct Past {
    last: Wides,
    before: Wides,
    first: Wides,
    /// How many were made so far; the count stands still at its end.
    count: u32,
}

/// The levels of a network, and what is known of the lists that were made with them.
#[derive(Drop)]
pub struct Kept {
    levels: Levels,
    print: Print,
    /// A cell that only this writes, and what stands there.
    mark: Wides,
    written: i128,
    /// `None` where there is no room.
    past: Option<Past>,
    /// One round has mended a list that lacked no more than this at any node.
    mended: u128,
}

/// Whether a list is asked for: one whose first entry is the least number is not.
pub fn is_wanted(list: &[i128]) -> bool {
    match list.first() {
        Some(first) => *first != i128::MIN,
        None => false,
    }
}

/// The voltage of the pad that is near a node, or 0.
fn near_volts(words: &Words, net: &Net, levels: &Levels, node: u32) -> i128 {
    let pad = levels.near(words, node);
    if pad > 0 && pad <= net.nodes() {
        net.pad(pad - 1).unwrap_or(0)
    } else {
        0
    }
}

/// Gives each pad its voltage, and each other node that of a pad that is near, where there is one.
fn start_near(words: &Words, net: &Net, levels: &Levels, x: &mut [i128]) {
    let mut node: u32 = 0;
    for entry in x.iter_mut() {
        if node < net.nodes() {
            if let Some(volts) = net.pad(node) {
                *entry = volts;
            } else if levels.near(words, node) != 0 {
                *entry = near_volts(words, net, levels, node);
            }
        }
        node = node.wrapping_add(1);
    }
}

impl Past {
    // Room for three lists. `None` where there is none.
    fn cut(words: &mut Words, nodes: u32) -> Option<Past> {
        let last = Wides::cut(words, nodes as usize)?;
        let before = Wides::cut(words, nodes as usize)?;
        let first = Wides::cut(words, nodes as usize)?;
        Some(Past {
            last,
            before,
            first,
            count: 0,
        })
    }

    // Gives each pad its voltage, and each other node that of the last list, moved as far as the list before it lies from the
    // one before that. Where high and low lists come in turn, a low one starts as far below its high one as before, and a high
    // one goes on as the low ones went.
    fn start(self, words: &Words, net: &Net, x: &mut [i128]) {
        let mut node: u32 = 0;
        for entry in x.iter_mut() {
            if node < net.nodes() {
                let moved = self
                    .before
                    .at(words, node)
                    .wrapping_sub(self.first.at(words, node));
                *entry = match net.pad(node) {
                    Some(volts) => volts,
                    None => self.last.at(words, node).wrapping_add(moved),
                };
            }
            node = node.wrapping_add(1);
        }
    }

    // The lists with this one as the last, in place of the first.
    fn with(self, words: &mut Words, x: &[i128]) -> Past {
        let mut node: u32 = 0;
        for entry in x {
            self.first.put(words, node, *entry);
            node = node.wrapping_add(1);
        }
        Past {
            last: self.first,
            before: self.last,
            first: self.before,
            count: self.count.saturating_add(1),
        }
    }
}

impl Kept {
    /// What is kept of levels that were just made.
    pub fn of(words: &mut Words, net: &Net, levels: Levels, print: Print, mark: Wides) -> Kept {
        Kept {
            levels,
            print,
            mark,
            written: 0,
            past: Past::cut(words, net.nodes()),
            mended: 0,
        }
    }

    /// Whether these are the levels of a network with this print, and lie in the cells as they were left.
    fn is_of(&self, words: &Words, print: Print) -> bool {
        self.print == print && self.written != 0 && self.mark.at(words, 0) == self.written
    }

    /// What is kept, where it is of a network with this print and lies in the cells.
    pub fn still(words: &Words, kept: Option<Kept>, print: Print) -> Option<Kept> {
        let kept = kept?;
        if kept.is_of(words, print) {
            Some(kept)
        } else {
            None
        }
    }

    /// Writes the mark of a proposal.
    pub fn write_mark(&mut self, words: &mut Words, proposal: u64) {
        let mark = self.print.mark(proposal);
        self.mark.put(words, 0, mark);
        self.written = mark;
    }

    // Starts a list.
    fn start(&self, words: &Words, net: &Net, x: &mut [i128]) {
        match self.past {
            Some(past) if past.count >= 3 => past.start(words, net, x),
            _ => start_near(words, net, &self.levels, x),
        }
    }

    // Refines a list; `near` is what was made of the other one, from which it starts.
    fn refine(
        &self,
        words: &mut Words,
        net: &Net,
        half: Half,
        x: &mut [i128],
        near: Refined,
    ) -> Refined {
        let refining = Refining {
            net,
            levels: &self.levels,
            half,
            mended: self.mended,
        };
        let refined = refining.refine(words, x, near.gain);
        Refined {
            gain: refined.gain,
            mended: refined.mended.max(near.mended),
        }
    }

    /// Makes both lists, the low one from the high one on.
    pub fn correct_both(&mut self, words: &mut Words, net: &Net, x: &mut [i128], w: &mut [i128]) {
        self.start(words, net, x);
        let high = self.refine(words, net, Half::High, x, Refined::NOTHING);
        if w.len() == x.len() {
            w.copy_from_slice(x);
        }
        let low = self.refine(words, net, Half::Low, w, high);
        self.mended = low.mended;
    }

    /// Makes one list, and keeps it, so that later ones start from it.
    pub fn correct_one(&mut self, words: &mut Words, net: &Net, half: Half, x: &mut [i128]) {
        self.start(words, net, x);
        let refined = self.refine(words, net, half, x, Refined::NOTHING);
        self.mended = refined.mended;
        if let Some(past) = self.past {
            self.past = Some(past.with(words, x));
        }
    }
}
