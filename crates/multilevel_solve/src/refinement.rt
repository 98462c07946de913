//! Refinement: what each sum of the certificate lacks of the middle of its window, by the certificate's own floors and
//! ceilings, is solved for and added, until each sum lies in its window. Where the network has clusters, a round solves
//! first between them and then, for what is lacking by then, inside them.

ghost use Rattle.std.specs.Prelude.{◌<◌};

use crate::assembly::{assemble, is_pad, ohms_bits};
use crate::parts::{Part, Share};
use grid_net::Net;
use solve_levels::{Column, Effort, Stack, Wides, Words, shifted, spread_pads, wide_bits_of};

/// Which of the two lists is made.
#[derive(Clone, Copy, PartialEq, Eq)]
pub enum Half {
    High,
    Low,
}

/// Where the residuals of a list come from: its flows, or, where both load ends are those of the other list, what that
/// list left, which is known.
#[derive(Clone, Copy, PartialEq, Eq)]
enum Source {
    Flows,
    Known,
}

/// The most rounds of one list.
const ROUNDS: u32 = 12;

/// The most steps of gradients in one round.
const STEPS: u32 = 200;

/// The currents at the nodes: the sum of their magnitudes, the greatest one, and whether each lies in its window.
#[derive(Clone, Copy)]
struct Lack {
    total: u128,
    most: u128,
    is_none: bool,
}

/// What a round starts from.
#[derive(Clone, Copy)]
struct Round {
    source: Source,
    lack: Lack,
}

/// What one round leaves at most of the currents before it: a part as a fraction.
#[derive(Clone, Copy)]
pub struct Gain {
    left: u128,
    before: u128,
}

/// A part of a network, and the levels that solve it.
#[derive(Drop)]
pub struct Solving {
    pub part: Part,
    stack: Stack,
    /// The currents and the voltages of the first level.
    pub currents: Wides,
    volts: Wides,
}

impl Solving {
    /// Makes the levels of a part, and finds the pad that is near each of its nodes. `None` where there is no room.
    pub fn build(words: &mut Words, net: &Net, inverses: Column, part: Part) -> Option<Solving> {
        let plan = assemble(words, net, inverses, part)?;
        let stack = Stack::build(words, plan, part.near);
        let level = *stack.first()?;
        spread_pads(words, &level, part.near);
        Some(Solving {
            part,
            stack,
            currents: level.currents,
            volts: level.volts,
        })
    }

    /// The pad that is near a node, plus 1, or 0.
    pub fn near(&self, words: &Words, node: u32) -> u32 {
        let number = self.part.number(words, node);
        if number < self.part.nodes {
            self.part.near.number_at(words, number)
        } else {
            0
        }
    }
}

/// What solves a network, as places of words. No voltage and no load of the network is in it.
#[derive(Drop)]
pub struct Levels {
    pub inverses: Column,
    /// The whole, or what is between the clusters.
    pub first: Solving,
    /// What is inside the clusters.
    pub inside: Option<Solving>,
    /// What each sum lacks; of a whole these are the currents of its first level.
    pub lacks: Wides,
}

impl Levels {
    /// The pad that is near a node, plus 1, or 0.
    pub fn near(&self, words: &Words, node: u32) -> u32 {
        let own = match &self.inside {
            Some(inside) => inside.near(words, node),
            None => 0,
        };
        if own != 0 {
            return own;
        }
        self.first.near(words, node)
    }
}

/// What is refined, and with what.
#[derive(Clone, Copy)]
pub struct Refining<'a> {
    pub net: &'a Net,
    pub levels: &'a Levels,
    pub half: Half,
    /// One round has mended a list that lacked no more than this at any node; 0 where that is not known.
    pub mended: u128,
}

/// What became of a list: what its rounds gain, if it is good, and what one round has mended.
#[derive(Clone, Copy)]
pub struct Refined {
    pub gain: Option<Gain>,
    pub mended: u128,
}

impl Refined {
    /// Of no list.
    pub const NOTHING: Refined = Refined {
        gain: None,
        mended: 0,
    };
}

/// How many resistors stand at a node, and 1.
fn degree(net: &Net, node: u32) -> i128
    requires { node < net.now.nodes }
{
    (net.around(node).len() as i128).saturating_add(1)
}

/// The middle of the window of a node's sum, less what is drawn there.
fn target(net: &Net, half: Half, source: Source, node: u32) -> i128
    requires { node < net.now.nodes }
{
    let window = degree(net, node).saturating_mul(32).saturating_add(1);
    let (least, most) = net.load(node);
    let (least, most) = (least as i128, most as i128);
    match (source, half) {
        (Source::Known, _) => window
            .saturating_mul(-2)
            .saturating_sub(most.saturating_sub(least)),
        (Source::Flows, Half::High) => window.saturating_sub(least),
        (Source::Flows, Half::Low) => window.saturating_neg().saturating_sub(most),
    }
}

/// The flow of a difference over a resistance, rounded down, within 1: by the inverse, and by division where the flow has
/// more bits than the inverse is good for.
#[inline(always)]
fn flow(difference: i128, ohms: i128, inverse: u64) -> i128 {
    let bits = ohms_bits(ohms);
    let down = wide_bits_of(difference.unsigned_abs())
        .wrapping_sub(62)
        .max(0);
    if down.wrapping_sub(bits) > -4 {
        return difference.checked_div_euclid(ohms).unwrap_or(0);
    }
    let product = shifted(difference, down).wrapping_mul(inverse as i128);
    shifted(product, bits.wrapping_add(62).wrapping_sub(down))
}

/// Units of 2^-scale in which all currents together have 92 bits, and a current of 1 fA at most 40.
fn scale_for(lack: Lack) -> i64 {
    92i64.wrapping_sub(wide_bits_of(lack.total)).min(40)
}

/// How far a solve goes: to 48 fA, or to 27 bits below the greatest current.
fn effort_for(lack: Lack, scale: i64) -> Effort {
    let most = (lack.most >> 27).max(48).cast_signed();
    let goal = shifted(most, scale.wrapping_neg()).unsigned_abs().max(1);
    Effort { steps: STEPS, goal }
}

impl Refining<'_> {
    // Puts the targets of all nodes into the currents.
    fn put_targets(&self, words: &mut Words, source: Source) {
        for node in 0..self.net.nodes() {
            let current = target(self.net, self.half, source, node);
            self.levels.lacks.put(words, node, current);
        }
    }

    // Takes the flows of a list off the currents.
    fn take_flows(&self, words: &mut Words, x: &[i128]) {
        let mut k: u32 = 0;
        for resistor in self.net.resistors() {
            let (a, b) = (resistor.a, resistor.b);
            let at_a = x.get(a as usize).copied().unwrap_or(0);
            let at_b = x.get(b as usize).copied().unwrap_or(0);
            if at_a != at_b {
                let inverse = self.levels.inverses.at(words, k);
                let flow = flow(at_a.wrapping_sub(at_b), resistor.ohms, inverse);
                let (from_a, from_b) = match self.half {
                    Half::High => (flow, (-1i128).wrapping_sub(flow)),
                    Half::Low => (flow.wrapping_add(1), flow.wrapping_neg()),
                };
                self.levels.lacks.add(words, a, from_a.wrapping_neg());
                self.levels.lacks.add(words, b, from_b.wrapping_neg());
            }
            k = k.wrapping_add(1);
        }
    }

    // What each sum lacks of the middle of its window, as the currents.
    fn find_lack(&self, words: &mut Words, x: &[i128], source: Source) {
        self.put_targets(words, source);
        if source == Source::Flows {
            self.take_flows(words, x);
        }
    }

    // How much the sums lack.
    fn measure(&self, words: &Words) -> Lack {
        let mut lack = Lack {
            total: 0,
            most: 0,
            is_none: true,
        };
        for node in 0..self.net.nodes() {
            if self.net.pad(node).is_none() {
                let size = self.levels.lacks.at(words, node).unsigned_abs();
                let window = degree(self.net, node).unsigned_abs().saturating_mul(31);
                lack.is_none = lack.is_none && size <= window;
                lack.total = lack.total.saturating_add(size);
                lack.most = lack.most.max(size);
            }
        }
        lack
    }

    // Brings the currents to units of 2^-scale; those at pads become 0.
    fn scale(&self, words: &mut Words, scale: i64) {
        for node in 0..self.net.nodes() {
            let current = if self.net.pad(node).is_some() {
                0
            } else {
                shifted(self.levels.lacks.at(words, node), scale.wrapping_neg())
            };
            self.levels.lacks.put(words, node, current);
        }
    }

    // Adds up the currents by the nodes of a part, in units of 2^-scale.
    fn hand_over(&self, words: &mut Words, solving: &Solving, scale: i64) {
        let part = &solving.part;
        solving.currents.fill(words, part.nodes, 0);
        for node in 0..self.net.nodes() {
            let number = part.number(words, node);
            if number < part.nodes {
                let current = shifted(self.levels.lacks.at(words, node), scale.wrapping_neg());
                solving.currents.add(words, number, current);
            }
        }
    }

    // Solves a part for the currents, in units in which no voltage passes 122 bits. Answers the scale of the voltages.
    fn solve(&self, words: &mut Words, x: &[i128], round: Round, solving: &Solving) -> i64 {
        let mut scale = scale_for(round.lack);
        for attempt in 0..5 {
            if attempt > 0 {
                // The solve before may have used up the currents.
                scale = scale.wrapping_sub(24);
                self.find_lack(words, x, round.source);
            }
            if solving.part.share == Share::Whole {
                self.scale(words, scale);
            } else {
                self.hand_over(words, solving, scale);
            }
            let solved = solving.stack.solve(words, effort_for(round.lack, scale));
            if solved.used >> 122 == 0 {
                break;
            }
        }
        scale
    }

    // Adds the voltages of a part to a list.
    fn add(&self, words: &Words, x: &mut [i128], solving: &Solving, scale: i64) {
        let mut node: u32 = 0;
        for entry in x.iter_mut() {
            let number = solving.part.number(words, node);
            if number < solving.part.nodes && !is_pad(self.net, node) {
                let volts = shifted(solving.volts.at(words, number), scale);
                *entry = entry.wrapping_add(volts);
            }
            node = node.wrapping_add(1);
        }
    }

    // Solves a part, and adds its voltages to a list.
    fn correct(&self, words: &mut Words, x: &mut [i128], round: Round, solving: &Solving) {
        let scale = self.solve(words, x, round, solving);
        self.add(words, x, solving, scale);
    }

    // One round: the whole, or first between the clusters and then inside them.
    fn correct_all(&self, words: &mut Words, x: &mut [i128], round: Round) {
        self.correct(words, x, round, &self.levels.first);
        if let Some(inside) = &self.levels.inside {
            self.find_lack(words, x, Source::Flows);
            let next = Round {
                source: Source::Flows,
                lack: self.measure(words),
            };
            self.correct(words, x, next, inside);
        }
    }

    /// Corrects a list round by round, until each sum lies in its window, a round gains little, or what a round leaves is
    /// known to be nothing; `near` is the gain of the other list, from which this one starts with known residuals. With
    /// clusters nothing is known: what is left over in one is found at one of its nodes.
    pub fn refine(&self, words: &mut Words, x: &mut [i128], near: Option<Gain>) -> Refined {
        let is_whole = self.levels.inside.is_none();
        let mut gain = near;
        let mut before: u128 = 0;
        let mut most: u128 = 0;
        for number in 0..ROUNDS {
            let source = if is_whole && near.is_some() && number == 0 {
                Source::Known
            } else {
                Source::Flows
            };
            self.find_lack(words, x, source);
            let lack = self.measure(words);
            if lack.is_none {
                return self.refined(gain, if number == 1 { most } else { 0 });
            }
            if before > 0 {
                if number > 2 && lack.total > before / 2 {
                    return self.refined(None, 0);
                }
                gain = Some(worse(gain, lack.most, before));
            }
            before = lack.total;
            most = lack.most;
            self.correct_all(words, x, Round { source, lack });
            if is_whole
                && (leaves_nothing(gain, lack.total) || number == 0 && most <= self.mended)
            {
                return self.refined(gain, 0);
            }
        }
        self.refined(None, 0)
    }

    // What became of a list that one round has mended, where it lacked that much.
    fn refined(&self, gain: Option<Gain>, most: u128) -> Refined {
        Refined {
            gain,
            mended: self.mended.max(most),
        }
    }
}

/// The lesser gain: that so far, or that of a round that left so much of what was before it.
fn worse(gain: Option<Gain>, left: u128, before: u128) -> Gain {
    let this = Gain { left, before };
    match gain {
        None => this,
        Some(known) => {
            let is_worse = left.saturating_mul(known.before) > known.left.saturating_mul(before);
            if is_worse { this } else { known }
        }
    }
}

/// Whether a round leaves less than 4 fA of so much, by what is known.
fn leaves_nothing(gain: Option<Gain>, total: u128) -> bool {
    match gain {
        None => false,
        Some(gain) => {
            let left = total.saturating_mul(gain.left);
            left.checked_div(gain.before).unwrap_or(left) < 4
        }
    }
}
