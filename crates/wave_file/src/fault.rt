//! What the words of a line say, and the faults that they show.
ghost use Rattle.std.specs.Prelude.{◌≡◌, ◌↔◌, ℕ, true, List, IsTrue, Ok};
ghost use Rattle.wave_file.specs.Fault.{refused_kind, NumberFault, RangeFault, StepFault, FallsBelow, NodeFault, IsTwice};
ghost use Rattle.wave_file.specs.Number.{amperes, IsStep};
ghost use Rattle.wave_file.specs.Rule.{is_number as number_sort};
ghost use Rattle.wave_file.specs.Sort.{sort_of};
ghost use Rattle.wave_file.specs.inside.Held.{Holds};
ghost use Rattle.wave_file.specs.inside.Value.{SaysStep, SaysNode, SaysAmps, SaysHigh};
ghost use Rattle.number_place.specs.Place.{IsNumberAt};
ghost use Rattle.reading.specs.Fault.{FindsValue};
ghost use Rattle.reading.specs.Word.{Token, token};
ghost use Rattle.name_places.specs.Places.{place_of};

use crate::error::WavesKind;
use crate::held::Held;
use crate::number::{AMPERES, step_at};
use crate::sort::Sort;
use crate::spots::Spot;
use crate::value::Value;
use number_place::{Refused, small_number_at, texts_have_one_number};
use reading::Word;

/// The kind of a number that is refused.
fn refused_kind(refused: Refused) -> WavesKind
    ensures { result ≡ refused_kind refused }
{
    match refused {
        Refused::Syntax => WavesKind::Syntax,
        Refused::Number(error) => WavesKind::Number(error),
    }
}

/// Whether the step is below that of the line before.
fn is_below_last(held: &Held<'_>, step: u32) -> bool
    ensures { (names : List (List ℕ)) (units : List (List Token)) (text : List ℕ) → Holds names units held.now →
        IsStep text step → IsTrue result ↔ FallsBelow units text }
{
    texts_have_one_number();
    match held.changes.last() {
        Some(change) => step < change.step,
        None => false,
    }
}

/// The step that the text stands for, or why it is refused.
pub(crate) fn step_value(held: &Held<'_>, text: &[u8]) -> Result<Value, WavesKind>
    ensures { (names : List (List ℕ)) (units : List (List Token)) → Holds names units held.now →
        FindsValue (StepFault units text.now) (SaysStep text.now) result }
{
    let Some(step) = step_at(text) else {
        return Err(WavesKind::Syntax);
    };
    if is_below_last(held, step) {
        return Err(WavesKind::Falling);
    }
    Ok(Value::Step(step))
}

/// Whether a line before has this step and the name of this group.
fn is_twice(held: &Held<'_>, step: u32, node: usize) -> bool
    ensures { (names : List (List ℕ)) (units : List (List Token)) (text name : List ℕ) → Holds names units held.now →
        IsStep text step → place_of names name ≡ Some node → IsTrue result ↔ IsTwice units text name }
{
    texts_have_one_number();
    held.spots.contains(Spot { step, node })
}

/// The group that has the name, on a line with this step, or why the name is refused.
pub(crate) fn node_value<'a>(held: &Held<'a>, step: u32, name: &'a [u8]) -> Result<Value, WavesKind>
    ensures { (names : List (List ℕ)) (units : List (List Token)) (text : List ℕ) → Holds names units held.now →
        IsStep text step → FindsValue (NodeFault names units text name.now) (SaysNode names name.now) result }
{
    let Some(node) = held.groups.place(name) else {
        return Err(WavesKind::UnknownNode);
    };
    if is_twice(held, step, node as usize) {
        return Err(WavesKind::Twice);
    }
    Ok(Value::Node(node))
}

/// The current that the text stands for, or why it is refused.
pub(crate) fn low_value(text: &[u8]) -> Result<Value, WavesKind>
    ensures { FindsValue (NumberFault text.now) (SaysAmps text.now) result }
{
    match small_number_at(AMPERES, text) {
        Ok(amps) => Ok(Value::Amps(amps)),
        Err(refused) => Err(refused_kind(refused)),
    }
}

/// Whether a word stands for a number, and not for the end of the line.
fn is_number(sort: Sort) -> bool
    ensures { result ≡ number_sort sort }
{
    match sort {
        Sort::Mark | Sort::LineEnd | Sort::TextEnd => false,
        _ => true,
    }
}

/// The second number of a range, whose first number is this, or why it is refused. The line's end says nothing.
pub(crate) fn high_value(least: i64, high: &Word<'_>, sort: Sort) -> Result<Value, WavesKind>
    ensures { (low : Token) → sort ≡ sort_of (token high.now) → IsNumberAt amperes low.text (Ok least) →
        FindsValue (RangeFault low (token high.now)) (SaysHigh low (token high.now)) result }
{
    texts_have_one_number();
    if !is_number(sort) {
        return Ok(Value::Nothing);
    }
    match small_number_at(AMPERES, high.text) {
        Ok(greatest) => {
            if greatest < least {
                return Err(WavesKind::Falling);
            }
            Ok(Value::Amps(greatest))
        }
        Err(refused) => Err(refused_kind(refused)),
    }
}
