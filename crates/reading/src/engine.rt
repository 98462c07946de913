//! The one engine that reads the texts of all formats.
ghost use Rattle.std.specs.Prelude.{◌≡◌, ◌+◌, ◌^◌, ◌<◌, ◌≤◌, ◌∷◌, ◌++◌, List, [], IfOk, OnOk, length, map, None, Some};
ghost use Rattle.reading.specs.Word.{Token, token, heard_token, place_in, end_at, next_on_line};
ghost use Rattle.reading.specs.Source.{IsWhole};
ghost use Rattle.reading.specs.inside.Patterns.{Grown, Leaves, IsStanding};
ghost use Rattle.reading.specs.inside.Machine.{IsReady};
ghost use Rattle.reading.specs.inside.Engine.{HoldsHeard, StartsAt, Stands, StandsAt, part_after, ends_by, Finishes};
ghost use Rattle.reading.specs.Reader.{Takes};
ghost use Rattle.reading.specs.Outcome.{Gives};

use crate::grammar::Grammar;
use crate::machine::{Machine, Rest};
use crate::numbered::Numbered;
use crate::patterns::Standing;
use crate::refusal::{Cause, Refusal};
use crate::source::Source;
use crate::stop::{Step, Stop, refused};
use crate::word::{Form, Heard, Word};
use outside::Place;
use std::alloc::{AllocError, Global};

/// The node of the pattern of what may follow.
#[inline(always)]
fn start<'a, G: Grammar<'a>>(
    machine: &mut Machine,
    grammar: &G,
    said: &G::Record,
) -> Result<usize, AllocError>
where
    G::Sort: 'a,
    requires { IsReady G.Sort.number G.Section.number G.pattern machine.old }
    ensures ready { OnOk result (IsReady G.Sort.number G.Section.number G.pattern machine.new) }
    ensures grown { IfOk result (λ at. Grown machine.old.patterns.nodes.items machine.new.patterns.nodes.items at) }
    ensures is { IfOk result (λ at. (units : List (List Token)) → G.holds grammar.now said.now units →
        StartsAt G.Sort.number G.pattern (G.format grammar.now) machine.new.patterns.nodes.items at units) }
{
    let section = grammar.section(said);
    let number = section.number();
    if let Some(at) = machine.starts[number] {
        return Ok(at);
    }
    let at = machine.patterns.build(&G::rule(section))?;
    machine.widen()?;
    machine.starts[number] = Some(at);
    Ok(at)
}

/// What is left after a word of the sort.
// Into the loop over the words: mostly it is one look at the table.
#[inline(always)]
fn left_after<'a, G: Grammar<'a>>(machine: &mut Machine, sort: G::Sort) -> Result<Rest, AllocError>
    requires ready { IsReady G.Sort.number G.Section.number G.pattern machine.old }
    requires within { machine.old.at < length machine.old.patterns.nodes.items }
    ensures ready { OnOk result (IsReady G.Sort.number G.Section.number G.pattern machine.new) }
    ensures is { IfOk result (λ rest. Leaves G.Sort.number sort machine.old.patterns.nodes.items
        machine.new.patterns.nodes.items machine.old.at rest.node) }
    ensures stands { IfOk result
        (λ rest. IsStanding G.Sort.number machine.new.patterns.nodes.items rest.node rest.standing) }
{
    if let Some(rest) = machine.known(sort.number()) {
        return Ok(rest);
    }
    find_left::<G>(machine, sort)
}

/// What is left after a word of the sort, where it has not been asked before.
#[cold]
fn find_left<'a, G: Grammar<'a>>(machine: &mut Machine, sort: G::Sort) -> Result<Rest, AllocError>
    requires ready { IsReady G.Sort.number G.Section.number G.pattern machine.old }
    requires within { machine.old.at < length machine.old.patterns.nodes.items }
    ensures ready { OnOk result (IsReady G.Sort.number G.Section.number G.pattern machine.new) }
    ensures is { IfOk result (λ rest. Leaves G.Sort.number sort machine.old.patterns.nodes.items
        machine.new.patterns.nodes.items machine.old.at rest.node) }
    ensures stands { IfOk result
        (λ rest. IsStanding G.Sort.number machine.new.patterns.nodes.items rest.node rest.standing) }
{
    let number = sort.number();
    let node = machine.patterns.left(sort, machine.at)?;
    let rest = Rest {
        node,
        standing: machine.patterns.standing::<G::Sort>(node),
    };
    machine.widen()?;
    machine.note(number, rest);
    Ok(rest)
}

/// The place of a word of the open unit: of one before the word, or of the word itself.
fn place_at<V: Copy>(before: &[Heard<V>], word: &Word, at: usize) -> Place
    requires { at < length before.now + 1 }
    ensures { place_in (map heard_token before.now ++ token word.now ∷ []) None at ≡ Some result }
{
    match before.get(at) {
        Some(heard) => heard.word.place,
        None => word.place,
    }
}

/// Takes one more word into the open unit: what it does to it.
// Into the loop over the words, as what it calls, so that neither words nor answers are copied for a call.
#[inline(always)]
fn advance<'a, G: Grammar<'a>>(
    machine: &mut Machine,
    grammar: &G,
    said: &mut G::Record,
    unit: &mut Vec<Heard<'a, G::Value>>,
    word: Word<'a>,
) -> Result<Step, Stop<G::Kind>>
where
    G::Sort: 'a,
    G::Value: 'a,
    requires ready { IsReady G.Sort.number G.Section.number G.pattern machine.old }
    requires within { machine.old.at < length machine.old.patterns.nodes.items }
    requires stands { Stands G.Sort.number G.pattern (G.format grammar.now)
        (HoldsHeard (G.holds grammar.now said.old) (G.says grammar.now) unit.old.items)
        machine.old.patterns.nodes.items machine.old.at (map heard_token unit.old.items) }
    ensures ready { OnOk result (IsReady G.Sort.number G.Section.number G.pattern machine.new) }
    ensures within { OnOk result (machine.new.at < length machine.new.patterns.nodes.items) }
    ensures unit { IfOk result (λ step. map heard_token unit.new.items
        ≡ part_after step (map heard_token unit.old.items ++ token word.entry ∷ [])) }
    ensures takes { (units : List (List Token)) → length units ≤ 2 ^ 63 →
        StandsAt G.Sort.number G.pattern (G.format grammar.now)
        (HoldsHeard (G.holds grammar.now said.old) (G.says grammar.now) unit.old.items)
        machine.old.patterns.nodes.items machine.old.at units (map heard_token unit.old.items) →
        Takes (G.format grammar.now) (StandsAt G.Sort.number G.pattern (G.format grammar.now)
        (HoldsHeard (G.holds grammar.now said.new) (G.says grammar.now) unit.new.items)
        machine.new.patterns.nodes.items machine.new.at)
        units (map heard_token unit.old.items) (token word.entry) result }
{
    grammar.regular();
    let sort = grammar.sort(said, &word);
    let rest = match left_after::<G>(machine, sort) {
        Ok(rest) => rest,
        Err(_) => return Err(Stop::Want),
    };
    if rest.standing == Standing::Nowhere {
        return Err(Stop::Syntax);
    }
    let value = match grammar.hear(said, unit.as_slice(), &word, sort) {
        Ok(value) => value,
        Err(found) => {
            let place = place_at(unit.as_slice(), &word, found.at);
            return Err(Stop::Fault(place, found.kind));
        }
    };
    match unit.push(Heard { word, value }) {
        Ok(_) => {}
        Err(_) => return Err(Stop::Want),
    }
    if rest.standing == Standing::Open {
        machine.at = rest.node;
        return Ok(Step::Open);
    }
    match grammar.take(said, unit.as_slice()) {
        Ok(_) => {}
        Err(_) => return Err(Stop::Want),
    }
    unit.clear();
    machine.at = match start(machine, grammar, said) {
        Ok(at) => at,
        Err(_) => return Err(Stop::Want),
    };
    Ok(Step::Whole)
}

/// Whether the units have ended the text with this word.
fn has_ended<'a, G: Grammar<'a>>(grammar: &G, said: &G::Record, done: Step) -> bool
    ensures { (units : List (List Token)) → G.holds grammar.now said.now units →
        ends_by done ((G.format grammar.now).ends units) ≡ result }
{
    match done {
        Step::Open => false,
        Step::Whole => grammar.ends(said),
    }
}

/// The end of a text, one word after the one at the place.
fn end_after(place: Place) -> Word<'static>
    ensures { token result ≡ end_at (next_on_line place) }
{
    Word {
        text: &[],
        place: Place {
            line: place.line,
            word: place.word.saturating_add(1),
        },
        form: Form::End,
    }
}

/// Reads the end of a text that its units have ended, as its last word.
#[cold]
fn finish<'a, G: Grammar<'a>>(
    machine: &mut Machine,
    grammar: &G,
    said: &mut G::Record,
    unit: &mut Vec<Heard<'a, G::Value>>,
    end: Word<'a>,
) -> Result<(), Refusal<G::Kind>>
where
    G::Sort: 'a,
    G::Value: 'a,
    requires ready { IsReady G.Sort.number G.Section.number G.pattern machine.old }
    requires within { machine.old.at < length machine.old.patterns.nodes.items }
    requires stands { Stands G.Sort.number G.pattern (G.format grammar.now)
        (HoldsHeard (G.holds grammar.now said.old) (G.says grammar.now) unit.old.items)
        machine.old.patterns.nodes.items machine.old.at (map heard_token unit.old.items) }
    ensures { (units : List (List Token)) → length units ≤ 2 ^ 63 →
        StandsAt G.Sort.number G.pattern (G.format grammar.now)
        (HoldsHeard (G.holds grammar.now said.old) (G.says grammar.now) unit.old.items)
        machine.old.patterns.nodes.items machine.old.at units (map heard_token unit.old.items) →
        Finishes (G.format grammar.now)
        (StandsAt G.Sort.number G.pattern (G.format grammar.now)
        (HoldsHeard (G.holds grammar.now said.new) (G.says grammar.now) unit.new.items)
        machine.new.patterns.nodes.items machine.new.at)
        units (map heard_token unit.old.items) (token end.entry) result }
{
    let place = end.place;
    match advance(machine, grammar, said, unit, end) {
        Ok(_) => Ok(()),
        Err(stop) => Err(refused(place, stop)),
    }
}

/// Reads the words of a text into the record of the units that they are, or says at which word the text is refused, and
/// why. Of the words it keeps those of the open unit alone.
pub fn read_words<'a, G: Grammar<'a>, I: Source<'a>>(
    alloc: Global,
    grammar: &G,
    said: &mut G::Record,
    source: &mut I,
) -> Result<(), Refusal<G::Kind>>
where
    G::Sort: 'a,
    G::Value: 'a,
    requires start { G.holds grammar.now said.old [] }
    requires whole { IsWhole (I.left source.old) }
    requires few { length (I.left source.old).words ≤ 2 ^ 63 }
    ensures { Gives (G.format grammar.now) (G.holds grammar.now said.new) (I.left source.old) result }
{
    grammar.regular();
    let mut machine = match Machine::new(alloc) {
        Ok(machine) => machine,
        Err(_) => return Err(Refusal::Want),
    };
    machine.at = match start(&mut machine, grammar, said) {
        Ok(at) => at,
        Err(_) => return Err(Refusal::Want),
    };
    let mut unit = Vec::new(alloc);
    loop {
        let word = match source.next() {
            Ok(Some(word)) => word,
            Ok(None) => return Ok(()),
            Err(error) => return Err(Refusal::At(error.place, Cause::Lex(error.kind))),
        };
        let place = word.place;
        let done = match advance(&mut machine, grammar, said, &mut unit, word) {
            Ok(done) => done,
            Err(stop) => return Err(refused(place, stop)),
        };
        if has_ended(grammar, said, done) {
            return finish(&mut machine, grammar, said, &mut unit, end_after(place));
        }
    }
}
