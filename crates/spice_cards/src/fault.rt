//! What the words of a card say, and the faults that they show.
ghost use Rattle.std.specs.Prelude.{◌≡◌, ◌≤◌, ◌&&◌, ◌||◌, ℕ, List, map, [], ◌∷◌, ◌++◌, Some, Ok, Err};
ghost use Rattle.spice_cards.specs.Fault.{is_zero as zero_value, refused_kind as kind_of_refused, refused_by, floating_by, source_by, AnswerFault, EndFault, low_by, high_by, is_strange as strange_sort, FirstFault, ResistorFault, SourceFault, LoadFault, CapacitorFault, CardFault};
ghost use Rattle.spice_cards.specs.Card.{is_ground as ground_name};
ghost use Rattle.spice_cards.specs.Number.{volts, amperes};
ghost use Rattle.spice_cards.specs.Sort.{the, sort_of};
ghost use Rattle.spice_cards.specs.declared.sort.Sort.TheVariants as sorts;
ghost use Rattle.spice_cards.specs.inside.Value.{letter_of, IsWide, IsSmall, IsFloating, IsVolts, IsLow, IsHigh, SaysOhms, SaysVolts, SaysAmperes, SaysFarads, SaysWord, has_none};
ghost use Rattle.number_place.specs.Place.{CanRead, IsNumberAt};
ghost use Rattle.reading.specs.Fault.{FindsValue};
ghost use Rattle.reading.specs.Grammar.{AreHeard};
ghost use Rattle.reading.specs.Word.{token, heard_token};

use crate::card::{is_ground, value_at, without_dc};
use crate::error::CardsKind;
use crate::number::{AMPERES, FARADS, OHMS, VOLTS};
use crate::section::Section;
use crate::sort::{Sort, is};
use crate::value::Value;
use fixed_decimal::DecimalError;
use number_place::{NumberPlace, Refused, number_at, small_number_at, texts_have_one_number};
use reading::{Found, Heard, Word, told_at};

/// Whether a value is 0.
pub(crate) fn is_zero(value: i128) -> bool
    ensures { result ≡ zero_value value }
{
    value == 0
}

/// The kind of a number that is refused.
fn refused_kind(refused: Refused) -> CardsKind
    ensures { result ≡ kind_of_refused refused }
{
    match refused {
        Refused::Syntax => CardsKind::Syntax,
        Refused::Number(error) => CardsKind::Number(error),
    }
}

/// Ohms, volts or farads in the place, or why the text is refused there.
fn wide_at(place: NumberPlace, text: &[u8]) -> Result<Value, CardsKind>
    requires { CanRead place }
    ensures { FindsValue (AnswerFault place refused_by text.now) (IsWide place text.now) result }
{
    match number_at(place, text) {
        Ok(value) => Ok(Value::Wide(value)),
        Err(refused) => Err(refused_kind(refused)),
    }
}

/// Amperes, or why the text is refused as such.
fn small_value(text: &[u8]) -> Result<Value, CardsKind>
    ensures { FindsValue (AnswerFault amperes refused_by text.now) (IsSmall amperes text.now) result }
{
    match small_number_at(AMPERES, text) {
        Ok(value) => Ok(Value::Small(value)),
        Err(refused) => Err(refused_kind(refused)),
    }
}

/// The kind of a number that is refused as the value of a source between two nodes other than `0`.
fn floating_kind(refused: Refused) -> CardsKind
    ensures { floating_by (Err refused) ≡ Some result }
{
    match refused {
        Refused::Number(DecimalError::Vanishes | DecimalError::Range) => CardsKind::FloatingSource,
        _ => refused_kind(refused),
    }
}

/// The volts of a source between two nodes other than `0`, or why the text is refused there.
fn floating_value(text: &[u8]) -> Result<Value, CardsKind>
    ensures { FindsValue (AnswerFault volts floating_by text.now) (IsFloating text.now) result }
{
    match number_at(VOLTS, text) {
        Ok(value) => {
            if is_zero(value) {
                Ok(Value::Wide(value))
            } else {
                Err(CardsKind::FloatingSource)
            }
        }
        Err(refused) => Err(floating_kind(refused)),
    }
}

/// Whether one of the nodes of a source is `0`.
fn is_grounded(a: &[u8], b: &[u8]) -> bool
    ensures { result ≡ (ground_name a.now || ground_name b.now) }
{
    is_ground(a) || is_ground(b)
}

/// The volts of a source with these nodes, or why the text is refused there.
fn volts_value(a: &[u8], b: &[u8], text: &[u8]) -> Result<Value, CardsKind>
    ensures { FindsValue (AnswerFault volts (source_by a.now b.now) text.now) (IsVolts a.now b.now text.now) result }
{
    if is_grounded(a, b) {
        wide_at(VOLTS, text)
    } else {
        floating_value(text)
    }
}

/// The low end of the range of a load with this value, or why the text is refused there.
fn low_value(value: i64, text: &[u8]) -> Result<Value, CardsKind>
    ensures { (before : List ℕ) → IsNumberAt amperes before (Ok value) →
        FindsValue (EndFault low_by before text.now) (IsLow before text.now) result }
{
    texts_have_one_number();
    match small_number_at(AMPERES, text) {
        Ok(low) => {
            if value < low {
                return Err(CardsKind::OutOfRange);
            }
            Ok(Value::Small(low))
        }
        Err(refused) => Err(refused_kind(refused)),
    }
}

/// The high end of the range of a load with this value, or why the text is refused there.
fn high_value(value: i64, text: &[u8]) -> Result<Value, CardsKind>
    ensures { (before : List ℕ) → IsNumberAt amperes before (Ok value) →
        FindsValue (EndFault high_by before text.now) (IsHigh before text.now) result }
{
    texts_have_one_number();
    match small_number_at(AMPERES, text) {
        Ok(high) => {
            if high < value {
                return Err(CardsKind::OutOfRange);
            }
            Ok(Value::Small(high))
        }
        Err(refused) => Err(refused_kind(refused)),
    }
}

/// Whether a word begins a card or a dot line other than those that are read.
fn is_strange(sort: Sort) -> bool
    ensures { result ≡ strange_sort sort }
{
    match sort {
        Sort::Dc | Sort::Mark | Sort::Other => true,
        _ => false,
    }
}

/// What the first word of a unit says, or why it is refused.
pub(crate) fn first_value(section: Section, sort: Sort) -> Result<Value, CardsKind>
    ensures { FindsValue (FirstFault section sort) (λ said. letter_of said ≡ sort) result }
{
    match section {
        Section::Cards if is_strange(sort) => Err(CardsKind::OutOfProfileCard),
        _ => Ok(Value::First(sort)),
    }
}

/// What the word says after these words after the nodes of a resistor, or its fault.
fn ohms_word(before: &[Heard<'_, Value>], word: &Word<'_>) -> Result<Value, Found<CardsKind>>
    ensures { FindsValue (ResistorFault (map heard_token before.now ++ token word.now ∷ []))
        (SaysOhms (map heard_token before.now ++ token word.now ∷ [])) result }
{
    match before {
        [] => told_at(3, wide_at(OHMS, word.text)),
        _ => Ok(Value::Nothing),
    }
}

/// The same after the nodes of a source, where so many words stand before its value.
fn volts_word(
    a: &[u8],
    b: &[u8],
    at: usize,
    before: &[Heard<'_, Value>],
    word: &Word<'_>,
) -> Result<Value, Found<CardsKind>>
    ensures { FindsValue (SourceFault a.now b.now at (map heard_token before.now ++ token word.now ∷ []))
        (SaysVolts a.now b.now (map heard_token before.now ++ token word.now ∷ [])) result }
{
    match before {
        [] => told_at(at, volts_value(a, b, word.text)),
        _ => Ok(Value::Nothing),
    }
}

/// The same after the nodes of a load, where so many words stand before its value.
fn amperes_word(
    at: usize,
    before: &[Heard<'_, Value>],
    word: &Word<'_>,
) -> Result<Value, Found<CardsKind>>
    requires { at ≤ 4 }
    ensures { AreHeard SaysAmperes [] before.now →
        FindsValue (LoadFault at (map heard_token before.now ++ token word.now ∷ []))
        (SaysAmperes (map heard_token before.now ++ token word.now ∷ [])) result }
{
    match before {
        [] => told_at(at, small_value(word.text)),
        [value, _] => told_at(at + 2, low_value(value.value.small(), word.text)),
        [value, _, _] => told_at(at + 3, high_value(value.value.small(), word.text)),
        _ => Ok(Value::Nothing),
    }
}

/// The same after the ends of a capacitor.
fn farads_word(before: &[Heard<'_, Value>], word: &Word<'_>) -> Result<Value, Found<CardsKind>>
    ensures { FindsValue (CapacitorFault (map heard_token before.now ++ token word.now ∷ []))
        (SaysFarads (map heard_token before.now ++ token word.now ∷ [])) result }
{
    match before {
        [] => told_at(3, wide_at(FARADS, word.text)),
        _ => Ok(Value::Nothing),
    }
}

/// Whether this word of this sort after these words after the nodes is `DC` before a value.
fn is_dc_word(before: &[Heard<'_, Value>], sort: Sort) -> bool
    ensures { result ≡ (has_none before.now && the sorts.Dc sort) }
{
    before.is_empty() && is(Sort::Dc, sort)
}

/// The same after the nodes of a source, with `DC` or without.
fn source_word(
    a: &[u8],
    b: &[u8],
    before: &[Heard<'_, Value>],
    word: &Word<'_>,
    sort: Sort,
) -> Result<Value, Found<CardsKind>>
    ensures { AreHeard (SaysWord sorts.Source a.now b.now) [] before.now → sort ≡ sort_of (token word.now) →
        FindsValue (CardFault sorts.Source a.now b.now (map heard_token before.now ++ token word.now ∷ []))
        (SaysWord sorts.Source a.now b.now (map heard_token before.now ++ token word.now ∷ [])) result }
{
    if is_dc_word(before, sort) {
        Ok(Value::Dc)
    } else {
        volts_word(a, b, value_at(before), without_dc(before), word)
    }
}

/// The same after the nodes of a load, with `DC` or without.
fn load_word(
    before: &[Heard<'_, Value>],
    word: &Word<'_>,
    sort: Sort,
) -> Result<Value, Found<CardsKind>>
    ensures { (a b : List ℕ) → AreHeard (SaysWord sorts.Load a b) [] before.now → sort ≡ sort_of (token word.now) →
        FindsValue (CardFault sorts.Load a b (map heard_token before.now ++ token word.now ∷ []))
        (SaysWord sorts.Load a b (map heard_token before.now ++ token word.now ∷ [])) result }
{
    if is_dc_word(before, sort) {
        Ok(Value::Dc)
    } else {
        amperes_word(value_at(before), without_dc(before), word)
    }
}

/// The same after the nodes of a card with this letter.
pub(crate) fn card_word(
    letter: Sort,
    a: &[u8],
    b: &[u8],
    before: &[Heard<'_, Value>],
    word: &Word<'_>,
    sort: Sort,
) -> Result<Value, Found<CardsKind>>
    ensures { AreHeard (SaysWord letter a.now b.now) [] before.now → sort ≡ sort_of (token word.now) →
        FindsValue (CardFault letter a.now b.now (map heard_token before.now ++ token word.now ∷ []))
        (SaysWord letter a.now b.now (map heard_token before.now ++ token word.now ∷ [])) result }
{
    match letter {
        Sort::Resistor => ohms_word(before, word),
        Sort::Source => source_word(a, b, before, word, sort),
        Sort::Load => load_word(before, word, sort),
        Sort::Capacitor => farads_word(before, word),
        _ => Ok(Value::Nothing),
    }
}
