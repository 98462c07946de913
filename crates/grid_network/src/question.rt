//! The numbers of many points at once.
ghost use Rattle.std.specs.Prelude.{◌≡◌, ◌<◌, ◌∷◌, [], ◌++◌, List, All, IfOk, OnOk, length, map};
ghost use Rattle.grid_network.specs.declared.key.Key.{Key};
ghost use Rattle.grid_network.specs.Drawing.{key_at};
ghost use Rattle.grid_network.specs.Nodes.{number_of};
ghost use Rattle.grid_network.specs.inside.Steps.{TellsNumbers, AreInTurn};

use crate::junction::Junction;
use crate::key::Key;
use crate::number::{Numbers, number_of};
use crate::pad::Tap;
use crate::place::{key_at, key_on};
use grid_pieces::Piece;
use std::alloc::{AllocError, Global};

/// A point whose number is asked, with its place among those that are asked.
#[derive(Clone, Copy, Debug, PartialEq, Eq, PartialOrd, Ord)]
pub(crate) struct Question {
    pub(crate) key: Key,
    pub(crate) at: usize,
}

// Asks for one point more.
fn ask(questions: &mut Vec<Question>, key: &Key) -> Result<(), AllocError>
    ensures { OnOk result (questions.new.items
        ≡ questions.old.items ++ record { key = key.now; at = length questions.old.items } ∷ []) }
{
    let at = questions.len();
    questions.push(Question { key: *key, at })?;
    Ok(())
}

// The point of a load tap.
fn key_at_tap(pieces: &[Piece], tap: &Tap) -> Key
    requires { tap.now.piece < length pieces.now }
    ensures { result ≡ key_at pieces.now tap.now.piece tap.now.along }
{
    key_on(&pieces[tap.piece as usize], tap.along)
}

// The points of the junctions, in turn.
fn asked_of_junctions(
    alloc: Global,
    pieces: &[Piece],
    junctions: &[Junction],
) -> Result<Vec<Question>, AllocError>
    requires { All (λ j. j.piece < length pieces.now) junctions.now }
    ensures asked { IfOk result (λ questions. map (λ q. q.key) questions.items
        ≡ map (λ j. key_at pieces.now j.piece j.along) junctions.now) }
    ensures in_turn { IfOk result (λ questions. AreInTurn questions.items) }
{
    let mut questions = Vec::with_capacity(alloc, junctions.len())?;
    for junction in junctions {
        ask(&mut questions, &key_at(pieces, junction))?;
    }
    Ok(questions)
}

// The points of the load taps, in turn.
fn asked_of_taps(alloc: Global, pieces: &[Piece], taps: &[Tap]) -> Result<Vec<Question>, AllocError>
    requires { All (λ t. t.piece < length pieces.now) taps.now }
    ensures asked { IfOk result (λ questions. map (λ q. q.key) questions.items
        ≡ map (λ t. key_at pieces.now t.piece t.along) taps.now) }
    ensures in_turn { IfOk result (λ questions. AreInTurn questions.items) }
{
    let mut questions = Vec::with_capacity(alloc, taps.len())?;
    for tap in taps {
        ask(&mut questions, &key_at_tap(pieces, tap))?;
    }
    Ok(questions)
}

// The numbers of the points, in the order in which they are asked. They are looked for in the order of the points, so
// that each search reads what the one before it has brought into the cache.
fn numbers_of(
    alloc: Global,
    nodes: Numbers,
    questions: Vec<Question>,
) -> Result<Vec<u32>, AllocError>
    requires one_each { length nodes.numbers.now ≡ length nodes.places.now }
    requires in_turn { AreInTurn questions.items }
    ensures count { IfOk result (λ numbers. length numbers.items ≡ length questions.items) }
    ensures numbers { IfOk result (λ numbers. (keys : List Key) → TellsNumbers keys nodes.entry.places.now nodes.entry.numbers.now
        → numbers.items ≡ map (λ q. number_of keys q.key) questions.items) }
{
    let mut numbers = vec![in alloc; 0u32; questions.len()]?;
    let mut sorted = questions;
    sorted.sort_unstable();
    for question in &sorted {
        numbers[question.at] = number_of(nodes, &question.key);
    }
    Ok(numbers)
}

/// The numbers of the nodes at the junctions.
pub(crate) fn numbers_of_junctions(
    alloc: Global,
    nodes: Numbers,
    pieces: &[Piece],
    junctions: &[Junction],
) -> Result<Vec<u32>, AllocError>
    requires one_each { length nodes.numbers.now ≡ length nodes.places.now }
    requires pieces { All (λ j. j.piece < length pieces.now) junctions.now }
    ensures count { IfOk result (λ numbers. length numbers.items ≡ length junctions.now) }
    ensures numbers { IfOk result (λ numbers. (keys : List Key) → TellsNumbers keys nodes.entry.places.now nodes.entry.numbers.now
        → numbers.items ≡ map (λ j. number_of keys (key_at pieces.now j.piece j.along)) junctions.now) }
{
    let questions = asked_of_junctions(alloc, pieces, junctions)?;
    let numbers = numbers_of(alloc, nodes, questions)?;
    Ok(numbers)
}

/// The numbers of the nodes at the load taps.
pub(crate) fn numbers_of_taps(
    alloc: Global,
    nodes: Numbers,
    pieces: &[Piece],
    taps: &[Tap],
) -> Result<Vec<u32>, AllocError>
    requires one_each { length nodes.numbers.now ≡ length nodes.places.now }
    requires pieces { All (λ t. t.piece < length pieces.now) taps.now }
    ensures count { IfOk result (λ numbers. length numbers.items ≡ length taps.now) }
    ensures numbers { IfOk result (λ numbers. (keys : List Key) → TellsNumbers keys nodes.entry.places.now nodes.entry.numbers.now
        → numbers.items ≡ map (λ t. number_of keys (key_at pieces.now t.piece t.along)) taps.now) }
{
    let questions = asked_of_taps(alloc, pieces, taps)?;
    let numbers = numbers_of(alloc, nodes, questions)?;
    Ok(numbers)
}
