ghost use Rattle.std.specs.Prelude.{◌≡◌, ℕ, None};

use crate::assembly::invert;
use crate::kept::{Kept, is_wanted};
use crate::parts::{Part, split};
use crate::print::Print;
use crate::refinement::{Half, Levels, Solving};
use grid_net::{Net, Solver};
use level_region::Region;
use solve_levels::{Column, Wides, Words};
use std::marker::Model;

/// A solver that is fast: nodes of few edges are taken out exactly, conjugate gradients solve the rest over a hierarchy of
/// groups, and both lists are refined until the certificate's own sums lie in the middle of their windows. Of a network
/// with clusters, which are tied far more strongly than to each other, what is between them and what is inside them is
/// solved in turn. All its memory
/// is cut from the region; where that has no room for a level it works on those above, and where it has none for the
/// first it proposes a pad's voltage everywhere. It computes in whole numbers alone. docs/SOLVER.md tells the method.
///
/// Where the levels of the proposal before still lie in the region, and are of the same resistors with pads at the same nodes,
/// they are used again. A list whose first entry is the least number of 128 bits is not asked for, and stays as it is; where
/// one list alone is asked for it is kept, and the next one starts from it.
///
/// Contracts see how many proposals it was asked for.
#[derive(Drop)]
pub struct Multilevel {
    proposals: u64,
    kept: Option<Kept>,
}

impl Model for Multilevel {
    ghost use Rattle.std.specs.Prelude.{ℕ};

    ghost Value = { ℕ };

    ghost view = { λ solver. solver.proposals };
}

/// Fills a list with the first pad's voltage.
fn fill(net: &Net, x: &mut [i128]) {
    x.fill(net.pads().first().map_or(0, |pad| pad.volts));
}

/// The levels of a network without clusters. `None` where there is no room for the first one.
fn whole(words: &mut Words, net: &Net, inverses: Column) -> Option<Levels> {
    let part = Part::whole(words, net)?;
    let first = Solving::build(words, net, inverses, part)?;
    let lacks = first.currents;
    Some(Levels {
        inverses,
        first,
        inside: None,
        lacks,
    })
}

/// The levels of a network that has clusters.
fn in_parts(
    words: &mut Words,
    net: &Net,
    inverses: Column,
    (between, inside): (Part, Part),
) -> Option<Levels> {
    let lacks = Wides::cut(words, net.nodes() as usize)?;
    let first = Solving::build(words, net, inverses, between)?;
    let inside = Solving::build(words, net, inverses, inside)?;
    Some(Levels {
        inverses,
        first,
        inside: Some(inside),
        lacks,
    })
}

/// Makes the levels of a network in the words. `None` where there is no room for the first one.
fn build(words: &mut Words, net: &Net, print: Print) -> Option<Kept> {
    let mark = Wides::cut(words, 1)?;
    let inverses = invert(words, net.resistors())?;
    let levels = match split(words, net) {
        Some(parts) => in_parts(words, net, inverses, parts)?,
        None => whole(words, net, inverses)?,
    };
    Some(Kept::of(words, net, levels, print, mark))
}

/// The levels of a network: those that are kept, where they are of its resistors and pads and lie in the words, and else
/// new ones. `None` where there is no room for the first one.
fn levels_for(words: &mut Words, net: &Net, kept: Option<Kept>) -> Option<Kept> {
    let print = Print::of(net);
    match Kept::still(words, kept, print) {
        Some(kept) => Some(kept),
        None => build(words, net, print),
    }
}

/// Makes the lists that are asked for in the cells, with the levels that are kept or with new ones, and answers what is to be
/// kept. `None` where there is no room for the first level.
fn solve(
    net: &Net,
    kept: Option<Kept>,
    proposal: u64,
    cells: &mut [i128],
    x: &mut [i128],
    w: &mut [i128],
) -> Option<Kept> {
    let mut words = Words::new(cells);
    let is_high = is_wanted(x);
    let is_low = is_wanted(w);
    if is_high {
        fill(net, x);
    }
    if is_low {
        fill(net, w);
    }
    let mut kept = levels_for(&mut words, net, kept)?;
    if is_high && is_low {
        kept.correct_both(&mut words, net, x, w);
    } else if is_high {
        kept.correct_one(&mut words, net, Half::High, x);
    } else if is_low {
        kept.correct_one(&mut words, net, Half::Low, w);
    }
    kept.write_mark(&mut words, proposal);
    Some(kept)
}

impl Multilevel {
    /// A solver over several levels. It takes no memory.
    pub fn new() -> Multilevel
        ensures { result ≡ 0 }
    {
        Multilevel {
            proposals: 0,
            kept: None,
        }
    }
}

impl Solver for Multilevel {
    ghost told = { λ _. None };

    ghost proposals = { λ solver. solver };

    fn propose(&mut self, net: &Net, work: &mut Region, x: &mut [i128], w: &mut [i128]) {
        self.proposals = self.proposals.saturating_add(1);
        let kept = self.kept.take();
        let left = work.left();
        if let Some(span) = work.cut(left) {
            self.kept = solve(net, kept, self.proposals, work.get_mut(span), x, w);
        }
    }
}
