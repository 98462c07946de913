//! What the words of a unit say.
ghost use Rattle.std.specs.Prelude.{◌≡◌, ◌≤ℤ◌, ◌↔◌, ℤ, Result, IfOk, IsTrue};
ghost use Rattle.lef_tech.specs.Number.{place_of};
ghost use Rattle.lef_tech.specs.inside.Value.{answer_of, number_at, natural_at, apart_at};
ghost use Rattle.number_place.specs.declared.place.Refused.{Refused as Reason};
ghost use Rattle.number_place.specs.Place.{IsNumberAt};

use crate::number::{Quantity, place_of};
use crate::sort::Sort;
use number_place::{Refused, small_number_at};
use reading::Heard;

/// What a word of a unit says.
#[derive(Clone, Copy, Debug)]
pub(crate) struct Value {
    /// The sort of the word: that of the first one says which statement it is.
    pub(crate) sort: Sort,
    /// The number that the word stands for, or that it shows the word before to stand for; 0 where it is none.
    pub(crate) number: i64,
}

/// A word that is no number.
pub(crate) fn plain(sort: Sort) -> Value
    ensures { result.sort ≡ sort }
{
    Value { sort, number: 0 }
}

/// Reads the text as a number of this kind, which a word of the sort says, or tells why it is refused.
pub(crate) fn read_number(quantity: Quantity, sort: Sort, text: &[u8]) -> Result<Value, Refused>
    ensures sort { IfOk result (λ value. value.sort ≡ sort) }
    ensures answer { IsNumberAt (place_of quantity) text.now (answer_of result) }
    ensures only { (other : Result ℤ Reason) → IsNumberAt (place_of quantity) text.now other → other ≡ answer_of result }
{
    match small_number_at(place_of(quantity), text) {
        Ok(number) => Ok(Value { sort, number }),
        Err(refused) => Err(refused),
    }
}

/// Whether a number is at most another.
pub(crate) fn is_at_most(a: Value, b: Value) -> bool
    ensures { IsTrue result ↔ (a.number ≤ℤ b.number) }
{
    a.number <= b.number
}

/// The number that the word says which has so many words of its unit before it, and 0 where there is none.
fn number_at(unit: &[Heard<'_, Value>], at: usize) -> i64
    ensures { result ≡ number_at unit.now at }
{
    match unit.get(at) {
        Some(heard) => heard.value.number,
        None => 0,
    }
}

/// The same without its sign.
pub(crate) fn natural_at(unit: &[Heard<'_, Value>], at: usize) -> u64
    ensures { result ≡ natural_at unit.now at }
{
    number_at(unit, at).unsigned_abs()
}

/// How far the numbers of two words of a unit are apart.
pub(crate) fn apart_at(unit: &[Heard<'_, Value>], low: usize, high: usize) -> u64
    ensures { result ≡ apart_at unit.now low high }
{
    number_at(unit, high).abs_diff(number_at(unit, low))
}
