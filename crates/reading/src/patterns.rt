//! Patterns as nodes of one list, and what is left of one after a word.
ghost use Rattle.std.specs.Prelude.{◌≡◌, ◌≢◌, ◌<◌, IfOk, IsTrue, length, true, false};
ghost use Rattle.reading.specs.Pattern.{Pattern, Never};
ghost use Rattle.reading.specs.Tests.{skips};
ghost use Rattle.reading.specs.inside.Left.{seq, alt, left};
ghost use Rattle.reading.specs.inside.Patterns.{IsStanding};
ghost use Rattle.reading.specs.inside.Patterns.{IsGraph, PartsBelow, Placed, Joins, Leaves, Denotes, IsSet, among, IsWith, IsWithout, Built};
ghost use Rattle.reading.specs.Rule.{listed_in};

use crate::numbered::Numbered;
use crate::rule::Rule;
use std::alloc::{AllocError, Global};

/// How the open unit stands where some pattern is left of its own.
#[derive(Clone, Copy, Debug, PartialEq, Eq)]
pub(crate) enum Standing {
    /// The unit's words so far begin no unit.
    Nowhere,
    /// The unit goes on.
    Open,
    /// The unit is whole.
    Whole,
}

/// A pattern whose parts stand earlier in the list.
#[derive(Clone, Copy, Debug, PartialEq, Eq)]
pub(crate) enum Node {
    Never,
    Empty,
    /// One word: bit `n` of the set is 1 for the sort of number `n`.
    One(u64),
    Then(usize, usize),
    Or(usize, usize),
    Many(usize),
}

/// Patterns of words, each made of earlier ones, and no two alike.
#[derive(Drop)]
pub(crate) struct Patterns {
    nodes: Vec<Node>,
}

fn is_same(a: Node, b: Node) -> bool
    ensures { IsTrue result → a ≡ b }
{
    match (a, b) {
        (Node::Never, Node::Never) => true,
        (Node::Empty, Node::Empty) => true,
        (Node::One(x), Node::One(y)) => x == y,
        (Node::Then(x, y), Node::Then(z, w)) => x == z && y == w,
        (Node::Or(x, y), Node::Or(z, w)) => x == z && y == w,
        (Node::Many(x), Node::Many(y)) => x == y,
        _ => false,
    }
}

/// The set with one more number in it.
fn with_number(set: u64, number: usize) -> u64
    requires { number < 64 }
    ensures { IsWith set number result }
{
    set | (1 << number)
}

/// Whether the sort's number is in the set.
fn is_in<S: Numbered>(set: u64, sort: S) -> bool
    ensures { result ≡ among (S.number sort) set }
{
    (set >> sort.number()) % 2 == 1
}

/// The set of the sorts' numbers.
fn set_of<S: Numbered>(sorts: &[S]) -> u64
    ensures { IsSet S.number result (listed_in S.number sorts.now) }
{
    let mut set = 0;
    for sort in sorts {
        set = with_number(set, sort.number());
    }
    set
}

/// The set of the numbers below 64 that are not in the set.
fn without(set: u64) -> u64
    ensures { IsWithout set result }
{
    !set
}

impl Patterns {
    pub(crate) fn new(alloc: Global) -> Patterns
        ensures graph { IsGraph result.nodes.items }
        ensures none { length result.nodes.items ≡ 0 }
    {
        Patterns {
            nodes: Vec::new(alloc),
        }
    }

    /// How many nodes there are.
    pub(crate) fn count(&self) -> usize
        ensures { result ≡ length self.now.nodes.items }
    {
        self.nodes.len()
    }

    /// The place of the node, which is put at the end if it stands nowhere.
    fn place(&mut self, node: Node) -> Result<usize, AllocError>
        requires graph { IsGraph self.old.nodes.items }
        requires below { PartsBelow (length self.old.nodes.items) node }
        ensures { IfOk result (λ at. Placed self.old.nodes.items self.new.nodes.items at node) }
    {
        for (i, other) in self.nodes.iter().enumerate() {
            if is_same(*other, node) {
                return Ok(i);
            }
        }
        let at = self.nodes.len();
        self.nodes.push(node)?;
        Ok(at)
    }

    /// The first, then the second.
    fn seq<S: Numbered>(&mut self, a: usize, b: usize) -> Result<usize, AllocError>
        requires graph { IsGraph self.old.nodes.items }
        requires a_in { a < length self.old.nodes.items }
        requires b_in { b < length self.old.nodes.items }
        ensures { IfOk result (λ at. Joins S.number seq self.old.nodes.items self.new.nodes.items a b at) }
    {
        match self.nodes[a] {
            Node::Never => Ok(a),
            Node::Empty => Ok(b),
            _ => self.place(Node::Then(a, b)),
        }
    }

    /// The first or the second.
    fn alt<S: Numbered>(&mut self, a: usize, b: usize) -> Result<usize, AllocError>
        requires graph { IsGraph self.old.nodes.items }
        requires a_in { a < length self.old.nodes.items }
        requires b_in { b < length self.old.nodes.items }
        ensures { IfOk result (λ at. Joins S.number alt self.old.nodes.items self.new.nodes.items a b at) }
    {
        match (self.nodes[a], self.nodes[b]) {
            (Node::Never, _) => Ok(b),
            (_, Node::Never) => Ok(a),
            _ => self.place(Node::Or(a, b)),
        }
    }

    /// How the open unit stands where the pattern is left.
    #[cold]
    pub(crate) fn standing<S: Numbered>(&self, at: usize) -> Standing
        requires graph { IsGraph self.now.nodes.items }
        requires at_in { at < length self.now.nodes.items }
        ensures { IsStanding S.number self.now.nodes.items at result }
    {
        if self.is_never::<S>(at) {
            Standing::Nowhere
        } else if self.skips::<S>(at) {
            Standing::Whole
        } else {
            Standing::Open
        }
    }

    /// Whether the pattern is that of no list of words.
    fn is_never<S: Numbered>(&self, at: usize) -> bool
        requires { at < length self.now.nodes.items }
        ensures never { (p : Pattern S) → Denotes S.number self.now.nodes.items at p → result ≡ true → p ≡ Never }
        ensures some { (p : Pattern S) → Denotes S.number self.now.nodes.items at p → result ≡ false → p ≢ Never }
    {
        match self.nodes[at] {
            Node::Never => true,
            _ => false,
        }
    }

    /// Whether no words are of the pattern.
    fn skips<S: Numbered>(&self, at: usize) -> bool
        requires graph { IsGraph self.now.nodes.items }
        requires at_in { at < length self.now.nodes.items }
        ensures { (p : Pattern S) → Denotes S.number self.now.nodes.items at p → result ≡ skips p }
    {
        match self.nodes[at] {
            Node::Never => false,
            Node::Empty => true,
            Node::One(_) => false,
            Node::Many(_) => true,
            Node::Then(a, b) => self.skips::<S>(a) && self.skips::<S>(b),
            Node::Or(a, b) => self.skips::<S>(a) || self.skips::<S>(b),
        }
    }

    /// What is left of the pattern after a word of the sort.
    #[cold]
    pub(crate) fn left<S: Numbered>(&mut self, sort: S, at: usize) -> Result<usize, AllocError>
        requires graph { IsGraph self.old.nodes.items }
        requires at_in { at < length self.old.nodes.items }
        ensures { IfOk result (λ rest. Leaves S.number sort self.old.nodes.items self.new.nodes.items at rest) }
    {
        match self.nodes[at] {
            Node::Never => self.place(Node::Never),
            Node::Empty => self.place(Node::Never),
            Node::One(set) => {
                if is_in(set, sort) {
                    self.place(Node::Empty)
                } else {
                    self.place(Node::Never)
                }
            }
            Node::Then(a, b) => {
                let first = self.left(sort, a)?;
                let both = self.seq::<S>(first, b)?;
                if self.skips::<S>(a) {
                    let second = self.left(sort, b)?;
                    self.alt::<S>(both, second)
                } else {
                    Ok(both)
                }
            }
            Node::Or(a, b) => {
                let first = self.left(sort, a)?;
                let second = self.left(sort, b)?;
                self.alt::<S>(first, second)
            }
            Node::Many(a) => {
                let first = self.left(sort, a)?;
                self.seq::<S>(first, at)
            }
        }
    }

    /// The place of the rule's pattern.
    #[cold]
    pub(crate) fn build<S: Numbered>(&mut self, rule: &Rule<'_, S>) -> Result<usize, AllocError>
        requires { IsGraph self.old.nodes.items }
        ensures { IfOk result (λ at. Built S.number rule.now self.old.nodes.items self.new.nodes.items at) }
    {
        match rule {
            Rule::Nothing => self.place(Node::Never),
            Rule::One(sorts) => self.place(Node::One(set_of(*sorts))),
            Rule::Other(sorts) => self.place(Node::One(without(set_of(*sorts)))),
            Rule::Then(a, b) => {
                let a = self.build(a)?;
                let b = self.build(b)?;
                self.place(Node::Then(a, b))
            }
            Rule::Or(a, b) => {
                let a = self.build(a)?;
                let b = self.build(b)?;
                self.place(Node::Or(a, b))
            }
            Rule::Many(a) => {
                let a = self.build(a)?;
                self.place(Node::Many(a))
            }
        }
    }
}
