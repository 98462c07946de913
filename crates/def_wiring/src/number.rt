//! The numbers of wiring: whole numbers of the units of the design.
ghost use Rattle.std.specs.Prelude.{◌≡◌, ◌↔◌, ℤ, Result, IfOk, IsTrue};
ghost use Rattle.def_wiring.specs.Number.{whole, place_of, IsNumber, kind_of, NumberFault, IsOther};
ghost use Rattle.number_place.specs.declared.place.Refused.{Refused as Reason};
ghost use Rattle.number_place.specs.Place.{IsNumberAt};
ghost use Rattle.reading.specs.Fault.{Finds};

use crate::error::WiresKind;
use number_place::{NumberForm, NumberPlace, NumberSign, Refused, small_number_at};
use std::alloc::AllocError;

/// No number of a DEF is farther from 0.
pub const WIRE_LIMIT: u128 = 1_073_741_824;

/// What a number stands for.
#[derive(Clone, Copy, Debug)]
pub(crate) enum Quantity {
    /// A coordinate, or a number whose sign is asked for later.
    Any,
    /// A width, a lengthening, a space or an enclosure.
    NotNegative,
    /// The size of a cut, or a count.
    Positive,
}

fn whole(sign: NumberSign) -> NumberPlace
    ensures { result ≡ whole sign }
{
    NumberPlace {
        form: NumberForm::Integer,
        places: 0,
        limit: WIRE_LIMIT,
        sign,
    }
}

/// The place of a number.
fn place_of(quantity: Quantity) -> NumberPlace
    ensures { result ≡ place_of quantity }
{
    match quantity {
        Quantity::Any => whole(NumberSign::Any),
        Quantity::NotNegative => whole(NumberSign::NotNegative),
        Quantity::Positive => whole(NumberSign::Positive),
    }
}

/// Reads the text as a number of this kind, or says why it is refused.
pub(crate) fn read_number(quantity: Quantity, text: &[u8]) -> Result<i64, Refused>
    ensures answer { IsNumberAt (place_of quantity) text.now result }
    ensures only { (other : Result ℤ Reason) → IsNumberAt (place_of quantity) text.now other → other ≡ result }
{
    small_number_at(place_of(quantity), text)
}

/// The number that the text is; where it is none the answer is want of memory, which no clause ties to anything.
pub(crate) fn number_of(quantity: Quantity, text: &[u8]) -> Result<i64, AllocError>
    ensures { IfOk result (IsNumber quantity text.now) }
{
    match read_number(quantity, text) {
        Ok(value) => Ok(value),
        Err(_) => Err(AllocError),
    }
}

/// Whether the text is a number of this kind.
pub(crate) fn is_read(quantity: Quantity, text: &[u8]) -> bool
    ensures { IsTrue result ↔ ((value : ℤ) × IsNumber quantity text.now value) }
{
    match read_number(quantity, text) {
        Ok(_) => true,
        Err(_) => false,
    }
}

/// The kind of a number that is refused.
fn kind_of(refused: Refused) -> WiresKind
    ensures { result ≡ kind_of refused }
{
    match refused {
        Refused::Syntax => WiresKind::Syntax,
        Refused::Number(error) => WiresKind::Number(error),
    }
}

/// Why the text is refused as a number of this kind, if it is.
pub(crate) fn number_fault(quantity: Quantity, text: &[u8]) -> Option<WiresKind>
    ensures { Finds (NumberFault quantity text.now) result }
{
    match read_number(quantity, text) {
        Ok(_) => None,
        Err(refused) => Some(kind_of(refused)),
    }
}

/// Whether the two values are one.
fn is_equal(one: i64, other: i64) -> bool
    ensures { IsTrue result ↔ (one ≡ other) }
{
    one == other
}

/// Whether the two texts are two different numbers.
pub(crate) fn is_other(one: &[u8], other: &[u8]) -> bool
    ensures { IsTrue result ↔ IsOther one.now other.now }
{
    match (
        read_number(Quantity::Any, one),
        read_number(Quantity::Any, other),
    ) {
        (Ok(a), Ok(b)) => !is_equal(a, b),
        _ => false,
    }
}
