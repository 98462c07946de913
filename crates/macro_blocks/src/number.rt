//! The coordinates of a LEF library.
ghost use Rattle.std.specs.Prelude.{◌≡◌, List, [], ◌∷◌, map, IfOk, IfErr, IfNone, IfSome, false};
ghost use Rattle.fixed_decimal.specs.declared.error.DecimalError.{DecimalError as Reason};
ghost use Rattle.macro_blocks.specs.Fault.{AreCoordinates};
ghost use Rattle.macro_blocks.specs.Number.{IsCoordinate, IsRefused};
ghost use Rattle.macro_blocks.specs.Record.{noted, noted_in};
ghost use Rattle.macro_blocks.specs.Standing.{is_rect};
ghost use Rattle.macro_blocks.specs.inside.Held.{IsBad, IsSaid, AreCorners};
ghost use Rattle.macro_blocks.specs.inside.Value.{IsPlace, ArePlaces};
ghost use Rattle.number_place.specs.declared.place.Refused.TheVariants.{Number};
ghost use Rattle.reading.specs.Word.{Token, token, heard_token};

use crate::standing::is_stop;
use crate::value::Value;
use fixed_decimal::DecimalError;
use number_place::{NumberForm, NumberPlace, NumberSign, Refused, small_number_at};
use outside::Place;
use reading::{Heard, Word};

/// No coordinate is farther from 0, in pm: 100 mm.
pub const COORDINATE_LIMIT: u128 = 100_000_000_000;

/// Micrometres in pm, of any sign.
const COORDINATE: NumberPlace = NumberPlace {
    form: NumberForm::Decimal,
    places: 6,
    limit: COORDINATE_LIMIT,
    sign: NumberSign::Any,
};

/// A number that is refused, and where it stands.
#[derive(Clone, Copy, Debug, PartialEq, Eq)]
pub(crate) struct Bad {
    pub(crate) place: Place,
    pub(crate) error: DecimalError,
}

/// The coordinate that the word is, or why it is none.
pub(crate) fn coordinate_of(word: &Word<'_>) -> Result<i64, DecimalError>
    ensures value { IfOk result (λ value. IsCoordinate (token word.now) value) }
    ensures fine { IfOk result (λ value. (error : Reason) → IsRefused (token word.now) (Number error) → ⊥) }
    ensures error { IfErr result (λ error. IsRefused (token word.now) (Number error)) }
{
    match small_number_at(COORDINATE, word.text) {
        Ok(value) => Ok(value),
        Err(Refused::Number(error)) => Err(error),
        Err(Refused::Syntax) => Err(DecimalError::NotNumber),
    }
}

/// The word, where it stands for a number and is refused.
fn first_bad(word: &Heard<'_, Value>) -> Option<Bad>
    ensures { IsPlace word.now → (numbers : List Token) → AreCoordinates numbers →
        IsBad (noted numbers (heard_token word.now)) result }
{
    match word.value {
        Value::Refused(error) => Some(Bad {
            place: word.word.place,
            error,
        }),
        _ => None,
    }
}

/// The first number that is refused, after one more word.
fn bad_after(bad: Option<Bad>, word: &Heard<'_, Value>) -> Option<Bad>
    ensures { IsPlace word.now → (numbers : List Token) → IsBad numbers bad →
        IsBad (noted numbers (heard_token word.now)) result }
{
    match bad {
        Some(bad) => Some(bad),
        None => first_bad(word),
    }
}

/// The first of two words.
fn bad_of_two(a: &Heard<'_, Value>, b: &Heard<'_, Value>) -> Option<Bad>
    ensures { IsPlace a.now → IsPlace b.now → (numbers : List Token) → AreCoordinates numbers →
        IsBad (noted (noted numbers (heard_token a.now)) (heard_token b.now)) result }
{
    bad_after(first_bad(a), b)
}

/// The first of four words.
fn bad_of_four(
    a: &Heard<'_, Value>,
    b: &Heard<'_, Value>,
    c: &Heard<'_, Value>,
    d: &Heard<'_, Value>,
) -> Option<Bad>
    ensures { IsPlace a.now → IsPlace b.now → IsPlace c.now → IsPlace d.now → (numbers : List Token) →
        AreCoordinates numbers → IsBad (noted (noted (noted (noted numbers (heard_token a.now)) (heard_token b.now))
        (heard_token c.now)) (heard_token d.now)) result }
{
    bad_after(bad_after(bad_of_two(a, b), c), d)
}

/// The first number of a RECT that is refused.
pub(crate) fn bad_in(unit: &[Heard<'_, Value>]) -> Option<Bad>
    ensures { ArePlaces unit.now → (numbers : List Token) → AreCoordinates numbers →
        IsBad (noted_in numbers (map heard_token unit.now)) result }
{
    match unit {
        [] => None,
        [_] => None,
        [_, a] => first_bad(a),
        [_, a, b] => bad_of_two(a, b),
        [_, a, b, c] => bad_after(bad_of_two(a, b), c),
        [_, a, b, c, d] => bad_of_four(a, b, c, d),
        [_, a, b, c, d, _] => bad_of_four(a, b, c, d),
        _ => None,
    }
}

/// A corner of a rectangle.
#[derive(Clone, Copy, Debug)]
pub(crate) struct Corner {
    pub(crate) x: i64,
    pub(crate) y: i64,
}

/// The corner that two words say.
fn corner_of(x: &Heard<'_, Value>, y: &Heard<'_, Value>) -> Corner
    ensures x { IsSaid x.now result.x }
    ensures y { IsSaid y.now result.y }
{
    Corner {
        x: x.value.coordinate(),
        y: y.value.coordinate(),
    }
}

/// Two opposite corners of a rectangle.
#[derive(Clone, Copy, Debug)]
pub(crate) struct Corners {
    pub(crate) one: Corner,
    pub(crate) other: Corner,
}

/// The corners of a RECT, where it is whole.
pub(crate) fn corners_of(unit: &[Heard<'_, Value>]) -> Option<Corners>
    ensures none { IfNone result (is_rect (map heard_token unit.now) ≡ false) }
    ensures some { IfSome result (λ corners. AreCorners unit.now corners) }
{
    let [_, a, b, c, d, stop] = unit else {
        return None;
    };
    if !is_stop(&stop.word) {
        return None;
    }
    Some(Corners {
        one: corner_of(a, b),
        other: corner_of(c, d),
    })
}
