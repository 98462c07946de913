//! The numbers of a design: whole numbers of its units, and counts.
ghost use Rattle.std.specs.Prelude.{◌≡◌, ℕ, ℤ, List, Ok, Result, pos};
ghost use Rattle.def_design.specs.Number.{place_of};
ghost use Rattle.number_place.specs.declared.place.Refused.{Refused as Reason};
ghost use Rattle.number_place.specs.Place.{IsNumberAt};

use number_place::{
    NumberForm, NumberPlace, NumberSign, Refused, small_number_at, values_fit_their_places,
};

/// No number of a design is farther from 0.
pub const NUMBER_LIMIT: u128 = 1_073_741_824;

/// The most units that a micrometre has.
pub const UNITS_LIMIT: u128 = 20_000;

/// What a number stands for.
#[derive(Clone, Copy, Debug)]
pub(crate) enum Quantity {
    /// A coordinate, or a number that has no effect.
    Any,
    /// A length or a count that may be 0.
    NotNegative,
    /// A count of sites.
    Positive,
    /// How many units a micrometre has.
    Microns,
}

fn whole(limit: u128, sign: NumberSign) -> NumberPlace
    ensures { result ≡ record { form = NumberForm.Integer; places = 0; limit = limit; sign = sign } }
{
    NumberPlace {
        form: NumberForm::Integer,
        places: 0,
        limit,
        sign,
    }
}

/// The place of a number.
fn place_of(quantity: Quantity) -> NumberPlace
    ensures { result ≡ place_of quantity }
{
    match quantity {
        Quantity::Any => whole(NUMBER_LIMIT, NumberSign::Any),
        Quantity::NotNegative => whole(NUMBER_LIMIT, NumberSign::NotNegative),
        Quantity::Positive => whole(NUMBER_LIMIT, NumberSign::Positive),
        Quantity::Microns => whole(UNITS_LIMIT, NumberSign::Positive),
    }
}

/// Reads the text as a number of this kind, or says why it is refused.
pub(crate) fn read_number(quantity: Quantity, text: &[u8]) -> Result<i64, Refused>
    ensures answer { IsNumberAt (place_of quantity) text.now result }
    ensures only { (other : Result ℤ Reason) → IsNumberAt (place_of quantity) text.now other → other ≡ result }
{
    small_number_at(place_of(quantity), text)
}

/// How many units a micrometre has, by a number that fits its limits.
pub(crate) fn microns_of(number: i64) -> u32
    ensures { (text : List ℕ) → IsNumberAt (place_of Quantity.Microns) text (Ok number) → pos result ≡ number }
{
    values_fit_their_places();
    match u32::try_from(number) {
        Ok(microns) => microns,
        Err(_) => 0,
    }
}
