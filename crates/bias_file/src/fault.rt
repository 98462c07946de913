//! What the words of a line say, and the faults that they show.
ghost use Rattle.std.specs.Prelude.{◌≡◌, ◌<◌, ◌^◌, ◌↔◌, true, List, IsTrue, Contains, Ok};
ghost use Rattle.bias_file.specs.Fault.{refused_kind, NumberFault, ValueFault, RangeFault, FourthFault, FifthFault, names_of, NameFault};
ghost use Rattle.bias_file.specs.Rule.{has_value, is_number as number_sort};
ghost use Rattle.bias_file.specs.Sort.{sort_of};
ghost use Rattle.bias_file.specs.inside.Held.{HoldsLists};
ghost use Rattle.bias_file.specs.inside.Value.{IsWide, IsSmall, SaysThird, SaysHigh, SaysFourth, SaysFifth};
ghost use Rattle.number_place.specs.Place.{CanRead, IsNumberAt};
ghost use Rattle.bias_file.specs.Number.{amperes};
ghost use Rattle.reading.specs.Fault.{FindsValue};
ghost use Rattle.reading.specs.Word.{Token, token};

use crate::error::BiasKind;
use crate::held::Lists;
use crate::number::{AMPERES, DROP_VOLTS, MICROMETRES, VOLTS};
use crate::sort::Sort;
use crate::value::Value;
use number_place::{NumberPlace, Refused, number_at, small_number_at, texts_have_one_number};
use reading::Word;

/// The kind of a number that is refused.
fn refused_kind(refused: Refused) -> BiasKind
    ensures { result ≡ refused_kind refused }
{
    match refused {
        Refused::Syntax => BiasKind::Syntax,
        Refused::Number(error) => BiasKind::Number(error),
    }
}

/// Volts in the place, or why the text is refused there.
fn wide_at(place: NumberPlace, text: &[u8]) -> Result<Value, BiasKind>
    requires { CanRead place }
    ensures { FindsValue (NumberFault place text.now) (IsWide place text.now) result }
{
    match number_at(place, text) {
        Ok(value) => Ok(Value::Wide(value)),
        Err(refused) => Err(refused_kind(refused)),
    }
}

/// Amperes or a length in the place, or why the text is refused there.
fn small_at(place: NumberPlace, text: &[u8]) -> Result<Value, BiasKind>
    requires place { CanRead place }
    requires small { place.limit < 2 ^ 63 }
    ensures { FindsValue (NumberFault place text.now) (IsSmall place text.now) result }
{
    match small_number_at(place, text) {
        Ok(value) => Ok(Value::Small(value)),
        Err(refused) => Err(refused_kind(refused)),
    }
}

/// What the first number after the name says on a line with this first word.
pub(crate) fn third_value(line: Sort, text: &[u8]) -> Result<Value, BiasKind>
    ensures { FindsValue (ValueFault line text.now) (SaysThird line text.now) result }
{
    match line {
        Sort::Supply => wide_at(VOLTS, text),
        Sort::DropLimit => wide_at(DROP_VOLTS, text),
        Sort::Cell => small_at(AMPERES, text),
        Sort::Instance => small_at(AMPERES, text),
        _ => Ok(Value::Nothing),
    }
}

/// Whether a word stands for a number, and not for the end of the line.
fn is_number(sort: Sort) -> bool
    ensures { result ≡ number_sort sort }
{
    match sort {
        Sort::Mark | Sort::Comment | Sort::LineEnd | Sort::TextEnd => false,
        _ => true,
    }
}

/// The second number of a range, whose first number is this, or why it is refused.
fn range_value(least: i64, high: &Word<'_>, sort: Sort) -> Result<Value, BiasKind>
    ensures { (low : Token) → sort ≡ sort_of (token high.now) → IsNumberAt amperes low.text (Ok least) →
        FindsValue (RangeFault low (token high.now)) (SaysHigh low (token high.now)) result }
{
    texts_have_one_number();
    if !is_number(sort) {
        return Ok(Value::Nothing);
    }
    match small_number_at(AMPERES, high.text) {
        Ok(greatest) => {
            if greatest < least {
                return Err(BiasKind::Falling);
            }
            Ok(Value::Small(greatest))
        }
        Err(refused) => Err(refused_kind(refused)),
    }
}

/// What the fourth word says on a line with this first word, whose third word says this.
pub(crate) fn fourth_value(
    line: Sort,
    third: Value,
    fourth: &Word<'_>,
    sort: Sort,
) -> Result<Value, BiasKind>
    ensures { (word : Token) → sort ≡ sort_of (token fourth.now) → SaysThird line word.text third →
        FindsValue (FourthFault line word (token fourth.now)) (SaysFourth line word (token fourth.now)) result }
{
    match line {
        Sort::Cell => range_value(third.small(), fourth, sort),
        Sort::Instance => range_value(third.small(), fourth, sort),
        Sort::Pad => small_at(MICROMETRES, fourth.text),
        _ => Ok(Value::Nothing),
    }
}

/// What the fifth word says on a line with this first word.
pub(crate) fn fifth_value(line: Sort, text: &[u8]) -> Result<Value, BiasKind>
    ensures { FindsValue (FifthFault line text.now) (SaysFifth line text.now) result }
{
    match line {
        Sort::Pad => small_at(MICROMETRES, text),
        _ => Ok(Value::Nothing),
    }
}

/// Whether a line before has this name after the same first word.
fn stands_again<'a>(lists: &Lists<'a>, word: Sort, name: &'a [u8]) -> bool
    ensures { (units : List (List Token)) → HoldsLists units lists.now →
        IsTrue result ↔ ((has_value word ≡ true) × Contains (names_of word units) name.now) }
{
    match word {
        Sort::Supply => lists.supplies.contains(name),
        Sort::DropLimit => lists.drops.contains(name),
        Sort::Cell => lists.cells.contains(name),
        Sort::Instance => lists.instances.contains(name),
        _ => false,
    }
}

/// What the name says on a line with this first word: nothing, where it does not stand again.
pub(crate) fn name_value<'a>(
    lists: &Lists<'a>,
    line: Sort,
    text: &'a [u8],
) -> Result<Value, BiasKind>
    ensures { (units : List (List Token)) → HoldsLists units lists.now →
        FindsValue (NameFault units line text.now) (λ value. Unit {0}) result }
{
    if stands_again(lists, line, text) {
        return Err(BiasKind::Twice);
    }
    Ok(Value::Nothing)
}
