//! The numbers of a script.
ghost use Rattle.std.specs.Prelude.{◌≡◌, ◌↔◌, ℕ, IfNone, IfOk, IfSome, Some, Err};
ghost use Rattle.std.specs.List.{AllByRecursion};
ghost use Rattle.entry_list.specs.InTurn.{InTurn};
ghost use Rattle.number_place.specs.declared.place.Refused.{Refused as Reason};
ghost use Rattle.script_options.specs.ListWords.{words_of};
ghost use Rattle.script_options.specs.Number.{place_of as place, is_mark as mark, refused_as as reason, RefusesNumber, IsNumberIn, HasNumber};

use crate::list::first_part;
use fixed_decimal::DecimalError;
use number_place::{
    NumberForm, NumberPlace, NumberSign, Refused, small_number_at, values_fit_their_places,
};
use std::alloc::{AllocError, Global};

/// The longest length, in pm: 100 mm.
pub const LENGTH_LIMIT: u128 = 100_000_000_000;

/// The greatest count.
pub const COUNT_LIMIT: u128 = 1_000_000;

/// What a number stands for.
#[derive(Clone, Copy, Debug, PartialEq, Eq)]
pub enum Quantity {
    /// A length in pm, not below 0.
    Length,
    /// A length in pm, above 0.
    Width,
    /// A whole number, from 1 on.
    Count,
}

/// Micrometres in pm, not below 0.
const LENGTH: NumberPlace = NumberPlace {
    form: NumberForm::Decimal,
    places: 6,
    limit: LENGTH_LIMIT,
    sign: NumberSign::NotNegative,
};

/// Micrometres in pm, above 0.
const WIDTH: NumberPlace = NumberPlace {
    form: NumberForm::Decimal,
    places: 6,
    limit: LENGTH_LIMIT,
    sign: NumberSign::Positive,
};

/// A whole number, from 1 on.
const COUNT: NumberPlace = NumberPlace {
    form: NumberForm::Integer,
    places: 0,
    limit: COUNT_LIMIT,
    sign: NumberSign::Positive,
};

/// What the place of the number asks.
fn place_of(quantity: Quantity) -> NumberPlace
    ensures { result ≡ place quantity }
{
    match quantity {
        Quantity::Length => LENGTH,
        Quantity::Width => WIDTH,
        Quantity::Count => COUNT,
    }
}

/// Whether the word never stands for a number.
fn is_mark(text: &[u8]) -> bool
    ensures { result ≡ mark text.now }
{
    text == b";".as_slice() || text == b"(".as_slice() || text == b")".as_slice()
}

/// Why a number is refused: a count out of its range for its form.
fn refused_as(quantity: Quantity, refused: Refused) -> Refused
    ensures { result ≡ reason quantity refused }
{
    match quantity {
        Quantity::Count => match refused {
            Refused::Number(DecimalError::Range) => Refused::Syntax,
            _ => refused,
        },
        _ => refused,
    }
}

/// The number that the text stands for, or why it is refused.
pub(crate) fn number_told(quantity: Quantity, text: &[u8]) -> Result<u64, Refused>
    ensures refused { (refused : Reason) → (result ≡ Err refused) ↔ RefusesNumber quantity text.now refused }
    ensures is { IfOk result (λ value. IsNumberIn quantity text.now value) }
{
    values_fit_their_places();
    if is_mark(text) {
        return Err(Refused::Syntax);
    }
    match small_number_at(place_of(quantity), text) {
        Ok(value) => Ok(value.unsigned_abs()),
        Err(refused) => Err(refused_as(quantity, refused)),
    }
}

/// Why the text is refused as a number.
pub(crate) fn number_refused(quantity: Quantity, text: &[u8]) -> Option<Refused>
    ensures is { (refused : Reason) → (result ≡ Some refused) ↔ RefusesNumber quantity text.now refused }
    ensures fine { IfNone result (HasNumber quantity text.now) }
{
    match number_told(quantity, text) {
        Ok(_) => None,
        Err(refused) => Some(refused),
    }
}

/// The number that the text stands for, if it may stand there.
pub fn number_in(quantity: Quantity, text: &[u8]) -> Option<u64>
    ensures is { IfSome result (λ value. IsNumberIn quantity text.now value) }
    ensures all { (value : ℕ) → IsNumberIn quantity text.now value → result ≡ Some value }
{
    match small_number_at(place_of(quantity), text) {
        Ok(value) => {
            if value < 0 {
                return None;
            }
            Some(value as u64)
        }
        Err(_) => None,
    }
}

/// The numbers that the words of a list stand for, and 0 for a word that stands for none.
pub fn list_numbers(alloc: Global, quantity: Quantity, text: &[u8]) -> Result<Vec<u64>, AllocError>
    ensures { IfOk result (λ values. AllByRecursion (HasNumber quantity) (words_of text.now) →
        InTurn (IsNumberIn quantity) (words_of text.now) values.items) }
{
    let mut values = Vec::new(alloc);
    let mut rest = text;
    loop {
        let Some(part) = first_part(rest) else {
            return Ok(values);
        };
        values.push(number_in(quantity, part.word).unwrap_or(0))?;
        rest = part.rest;
    }
}
