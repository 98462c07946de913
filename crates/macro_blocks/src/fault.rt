//! What the words of a unit say, and the faults that they show.
ghost use Rattle.std.specs.Prelude.{◌≡◌, true, List};
ghost use Rattle.macro_blocks.specs.Fault.{Misplaced, Unless, NoCoordinate, OriginFault, CornerFault, EarlierFault, UseFault, UnfitFault, is_supply, StrayFault, FirstFault, SecondFault, ThirdFault, LaterFault, StopFault};
ghost use Rattle.macro_blocks.specs.Rule.{is_name as name_sort, is_number as number_sort};
ghost use Rattle.macro_blocks.specs.Sort.{the, sort_of};
ghost use Rattle.macro_blocks.specs.Standing.{is_known};
ghost use Rattle.macro_blocks.specs.inside.Fault.{value_or};
ghost use Rattle.macro_blocks.specs.inside.Held.{IsBad};
ghost use Rattle.macro_blocks.specs.inside.Value.{SaysPlace, SaysSecond, SaysLater, first_of};
ghost use Rattle.reading.specs.Fault.{Finds, FindsValue};
ghost use Rattle.reading.specs.Word.{Token, token};

use crate::error::Shown;
use crate::number::{Bad, coordinate_of};
use crate::section::Section;
use crate::sort::Sort;
use crate::standing::{Standing, is_known, is_own};
use crate::value::Value;
use number_place::{texts_have_one_number, values_fit_their_places};
use reading::Word;

/// The value, where no fault is shown.
fn value_or(value: Value, fault: Option<Shown>) -> Result<Value, Shown>
    ensures { result ≡ value_or value fault }
{
    match fault {
        Some(shown) => Err(shown),
        None => Ok(value),
    }
}

/// Why a word that fits or not is refused.
fn unless(fits: bool) -> Option<Shown>
    ensures { Finds (Unless fits) result }
{
    if fits { None } else { Some(Shown::Syntax) }
}

/// The same, where it is known what the words are for.
fn misplaced(known: bool, fits: bool) -> Option<Shown>
    ensures { Finds (Misplaced known fits) result }
{
    if known { unless(fits) } else { None }
}

/// Why a word of an ORIGIN is refused.
fn origin_fault(has_origin: bool, word: &Word<'_>) -> Option<Shown>
    ensures { Finds (OriginFault has_origin (token word.now)) result }
{
    texts_have_one_number();
    values_fit_their_places();
    let value = match coordinate_of(word) {
        Ok(value) => value,
        Err(error) => return Some(Shown::Number(error)),
    };
    if value == 0 {
        return None;
    }
    if has_origin {
        None
    } else {
        Some(Shown::Origin)
    }
}

/// Whether a word of this sort stands for a number where one is asked.
fn is_number(sort: Sort) -> bool
    ensures { result ≡ number_sort sort }
{
    match sort {
        Sort::Semicolon | Sort::Bracket | Sort::TextEnd => false,
        _ => true,
    }
}

/// Whether a word of this sort is a name.
fn is_name(sort: Sort) -> bool
    ensures { result ≡ name_sort sort }
{
    match sort {
        Sort::Semicolon | Sort::Quoted | Sort::TextEnd => false,
        _ => true,
    }
}

/// Whether a word of this sort is `;`.
fn is_stop(sort: Sort) -> bool
    ensures { result ≡ the Sort.Semicolon sort }
{
    matches!(sort, Sort::Semicolon)
}

/// What a word that stands for a number says in the place of a RECT's number, or why it is refused.
fn number_value(known: bool, word: &Word<'_>) -> Result<Value, Shown>
    ensures { number_sort (sort_of (token word.now)) ≡ true →
        FindsValue (CornerFault known (token word.now)) (SaysPlace (token word.now)) result }
{
    let error = match coordinate_of(word) {
        Ok(value) => return Ok(Value::Coordinate(value)),
        Err(error) => error,
    };
    if known {
        Err(Shown::Number(error))
    } else {
        Ok(Value::Refused(error))
    }
}

/// What a word of this sort says in the place of a RECT's number, or why it is refused.
fn corner_value(known: bool, word: &Word<'_>, sort: Sort) -> Result<Value, Shown>
    ensures { sort ≡ sort_of (token word.now) →
        FindsValue (CornerFault known (token word.now)) (SaysPlace (token word.now)) result }
{
    if is_number(sort) {
        return number_value(known, word);
    }
    if known {
        Err(Shown::Syntax)
    } else {
        Ok(Value::Nothing)
    }
}

/// Whether the word is POWER or GROUND.
fn is_supply(sort: Sort) -> bool
    ensures { result ≡ is_supply sort }
{
    matches!(sort, Sort::Power | Sort::Ground)
}

/// Whether the word is USE.
fn is_use(sort: Sort) -> bool
    ensures { result ≡ the Sort.Use sort }
{
    matches!(sort, Sort::Use)
}

/// The number before a USE that is refused.
fn earlier_fault(bad: Option<Bad>) -> Option<Shown>
    ensures { (numbers : List Token) → IsBad numbers bad → Finds (EarlierFault numbers) result }
{
    texts_have_one_number();
    match bad {
        Some(bad) => Some(Shown::Earlier(bad)),
        None => None,
    }
}

/// What the use of a pin shows.
fn use_fault(supply: bool, known: bool, bad: Option<Bad>) -> Option<Shown>
    ensures { (numbers : List Token) → IsBad numbers bad → Finds (UseFault supply known numbers) result }
{
    match (supply, known) {
        (true, false) => earlier_fault(bad),
        _ => None,
    }
}

/// What POWER or GROUND shows where a word before could not stand.
fn supply_fault(bad: Option<Bad>) -> Shown
    ensures { (numbers : List Token) → IsBad numbers bad → UnfitFault true true numbers result }
{
    match bad {
        Some(bad) => Shown::Earlier(bad),
        None => Shown::Syntax,
    }
}

/// What a word shows where a word before could not stand.
fn unfit_fault(supply: bool, after_use: bool, bad: Option<Bad>) -> Option<Shown>
    ensures { (numbers : List Token) → IsBad numbers bad → Finds (UnfitFault supply after_use numbers) result }
{
    match (supply, after_use) {
        (true, true) => Some(supply_fault(bad)),
        _ => None,
    }
}

/// Why a first word of this sort is refused in a pin, a port or obstructions.
fn stray_fault(standing: &Standing<'_>, first: Sort) -> Option<Shown>
    ensures { Finds (StrayFault (is_known standing.now.pin) first) result }
{
    match first {
        Sort::Semicolon => misplaced(is_known(&standing.pin), false),
        _ => None,
    }
}

/// Why a first word of this sort is refused.
fn first_fault(
    section: Section,
    standing: &Standing<'_>,
    bad: Option<Bad>,
    first: Sort,
) -> Option<Shown>
    ensures { (numbers : List Token) → IsBad numbers bad →
        Finds (FirstFault section standing.now numbers first) result }
{
    match section {
        Section::Pin | Section::Port | Section::Layered => stray_fault(standing, first),
        Section::Unfit => unfit_fault(is_supply(first), is_use(standing.last), bad),
        _ => None,
    }
}

/// What a first word of this sort says, or why it is refused.
pub(crate) fn first_value(
    section: Section,
    standing: &Standing<'_>,
    bad: Option<Bad>,
    first: Sort,
) -> Result<Value, Shown>
    ensures { (numbers : List Token) → IsBad numbers bad →
        FindsValue (FirstFault section standing.now numbers first) (λ value. first_of value ≡ first) result }
{
    value_or(
        Value::First(first),
        first_fault(section, standing, bad, first),
    )
}

/// Why the second word of a pin's unit is refused.
fn pin_fault(
    standing: &Standing<'_>,
    bad: Option<Bad>,
    first: Sort,
    second: &Word<'_>,
    sort: Sort,
) -> Option<Shown>
    ensures { (numbers : List Token) → sort ≡ sort_of (token second.now) → IsBad numbers bad →
        Finds (SecondFault Section.Pin standing.now numbers first (token second.now)) result }
{
    let known = is_known(&standing.pin);
    match first {
        Sort::End => misplaced(known, is_own(&standing.pin, second)),
        Sort::Use => use_fault(is_supply(sort), known, bad),
        _ => None,
    }
}

/// Why the second word of a macro's unit is refused.
fn macro_fault(standing: &Standing<'_>, first: Sort, second: &Word<'_>) -> Option<Shown>
    ensures { (numbers : List Token) →
        Finds (SecondFault Section.Macro standing.now numbers first (token second.now)) result }
{
    match first {
        Sort::End => unless(standing.cell.is(second)),
        Sort::Origin => origin_fault(standing.has_origin, second),
        _ => None,
    }
}

/// Why a second word of this sort is refused in a port or in obstructions before any LAYER.
fn port_fault(standing: &Standing<'_>, first: Sort, sort: Sort) -> Option<Shown>
    ensures { (numbers : List Token) (second : Token) → sort ≡ sort_of second →
        Finds (SecondFault Section.Port standing.now numbers first second) result }
{
    match first {
        Sort::Layer => misplaced(is_known(&standing.pin), is_name(sort)),
        _ => None,
    }
}

/// What the second word says in a port or in obstructions after a LAYER, or why it is refused.
fn layered_value(
    standing: &Standing<'_>,
    first: Sort,
    second: &Word<'_>,
    sort: Sort,
) -> Result<Value, Shown>
    ensures { (numbers : List Token) → sort ≡ sort_of (token second.now) →
        FindsValue (SecondFault Section.Layered standing.now numbers first (token second.now))
        (SaysSecond Section.Layered first (token second.now)) result }
{
    let known = is_known(&standing.pin);
    match first {
        Sort::Layer => value_or(Value::Nothing, misplaced(known, is_name(sort))),
        Sort::Rect => corner_value(known, second, sort),
        _ => Ok(Value::Nothing),
    }
}

/// What the second word of a unit says, or why it is refused.
pub(crate) fn second_value(
    section: Section,
    standing: &Standing<'_>,
    bad: Option<Bad>,
    first: Sort,
    second: &Word<'_>,
    sort: Sort,
) -> Result<Value, Shown>
    ensures { (numbers : List Token) → sort ≡ sort_of (token second.now) → IsBad numbers bad →
        FindsValue (SecondFault section standing.now numbers first (token second.now))
        (SaysSecond section first (token second.now)) result }
{
    match section {
        Section::Macro => value_or(Value::Nothing, macro_fault(standing, first, second)),
        Section::Pin => value_or(
            Value::Nothing,
            pin_fault(standing, bad, first, second, sort),
        ),
        Section::Port => value_or(Value::Nothing, port_fault(standing, first, sort)),
        Section::Layered => layered_value(standing, first, second, sort),
        _ => Ok(Value::Nothing),
    }
}

/// What the third word of a unit says, or why it is refused.
pub(crate) fn third_value(
    section: Section,
    standing: &Standing<'_>,
    third: &Word<'_>,
    sort: Sort,
) -> Result<Value, Shown>
    ensures { sort ≡ sort_of (token third.now) →
        FindsValue (ThirdFault section standing.now (token third.now)) (SaysLater section (token third.now)) result }
{
    match section {
        Section::Macro => value_or(Value::Nothing, origin_fault(standing.has_origin, third)),
        Section::Layered => corner_value(is_known(&standing.pin), third, sort),
        _ => Ok(Value::Nothing),
    }
}

/// What a later number of a RECT says, or why it is refused.
pub(crate) fn later_value(
    section: Section,
    standing: &Standing<'_>,
    later: &Word<'_>,
    sort: Sort,
) -> Result<Value, Shown>
    ensures { sort ≡ sort_of (token later.now) →
        FindsValue (LaterFault section standing.now (token later.now)) (SaysLater section (token later.now)) result }
{
    match section {
        Section::Layered => corner_value(is_known(&standing.pin), later, sort),
        _ => Ok(Value::Nothing),
    }
}

/// What a word of this sort after a RECT's numbers says, or why it is refused.
pub(crate) fn stop_value(
    section: Section,
    standing: &Standing<'_>,
    sort: Sort,
) -> Result<Value, Shown>
    ensures { (stop : Token) → sort ≡ sort_of stop →
        FindsValue (StopFault section standing.now stop) (λ value. Unit {0}) result }
{
    match section {
        Section::Layered => value_or(
            Value::Nothing,
            misplaced(is_known(&standing.pin), is_stop(sort)),
        ),
        _ => Ok(Value::Nothing),
    }
}
