//! The numbers of a written wiring.
ghost use Rattle.std.specs.Prelude.{◌≡◌, ℤ, Result};
ghost use Rattle.wiring_file.specs.Number.{place_of, numbers_in, quantity_at};
ghost use Rattle.number_place.specs.declared.place.Refused.{Refused as Reason};
ghost use Rattle.number_place.specs.Place.{IsNumberAt};

use crate::section::Section;
use number_place::{NumberForm, NumberPlace, NumberSign, Refused, small_number_at};

/// No number of a written wiring is farther from 0: 2^61.
pub const NUMBER_LIMIT: u128 = 2_305_843_009_213_693_952;

/// The most units that a micrometre has.
pub const UNITS_LIMIT: u128 = 20_000;

/// What a number stands for.
#[derive(Clone, Copy, Debug)]
pub(crate) enum Quantity {
    /// A coordinate.
    Coordinate,
    /// A length or a count that may be 0.
    NotNegative,
    /// A length or a count of cuts.
    Positive,
    /// How many units a micrometre has.
    Microns,
}

const UNITS: [(usize, Quantity); 1] = [(3, Quantity::Microns)];

const DIE: [(usize, Quantity); 4] = [
    (2, Quantity::Coordinate),
    (3, Quantity::Coordinate),
    (6, Quantity::Coordinate),
    (7, Quantity::Coordinate),
];

const COUNT: [(usize, Quantity); 1] = [(1, Quantity::NotNegative)];

const VIA: [(usize, Quantity); 10] = [
    (7, Quantity::Positive),
    (8, Quantity::Positive),
    (16, Quantity::NotNegative),
    (17, Quantity::NotNegative),
    (20, Quantity::NotNegative),
    (21, Quantity::NotNegative),
    (22, Quantity::NotNegative),
    (23, Quantity::NotNegative),
    (26, Quantity::Positive),
    (27, Quantity::Positive),
];

const LINE: [(usize, Quantity); 5] = [
    (1, Quantity::NotNegative),
    (6, Quantity::Coordinate),
    (7, Quantity::Coordinate),
    (10, Quantity::Coordinate),
    (11, Quantity::Coordinate),
];

/// The numbers of the units of a section, each by how many words stand before it in its unit.
fn numbers_in<'a>(section: Section) -> &'a [(usize, Quantity)]
    ensures { result.now ≡ numbers_in section }
{
    match section {
        Section::Units => &UNITS,
        Section::Die => &DIE,
        Section::ViasHead => &COUNT,
        Section::Vias => &VIA,
        Section::NetsHead => &COUNT,
        Section::Line => &LINE,
        _ => &[],
    }
}

/// The quantity of the word that has n words before it in a unit of the section, if it is a number.
pub(crate) fn number_at(section: Section, n: usize) -> Option<Quantity>
    ensures { result ≡ quantity_at n (numbers_in section) }
{
    for (place, quantity) in numbers_in(section) {
        if *place == n {
            return Some(*quantity);
        }
    }
    None
}

/// The place of a number.
fn place_of(quantity: Quantity) -> NumberPlace
    ensures { result ≡ place_of quantity }
{
    match quantity {
        Quantity::Coordinate => whole(NUMBER_LIMIT, NumberSign::Any),
        Quantity::NotNegative => whole(NUMBER_LIMIT, NumberSign::NotNegative),
        Quantity::Positive => whole(NUMBER_LIMIT, NumberSign::Positive),
        Quantity::Microns => whole(UNITS_LIMIT, NumberSign::Positive),
    }
}

/// Reads the text as a number of this kind, or says why it is refused.
pub(crate) fn read_number(quantity: Quantity, text: &[u8]) -> Result<i64, Refused>
    ensures answer { IsNumberAt (place_of quantity) text.now result }
    ensures only { (other : Result ℤ Reason) → IsNumberAt (place_of quantity) text.now other → other ≡ result }
{
    small_number_at(place_of(quantity), text)
}

fn whole(limit: u128, sign: NumberSign) -> NumberPlace
    ensures { result ≡ record { form = NumberForm.Integer; places = 0; limit = limit; sign = sign } }
{
    NumberPlace {
        form: NumberForm::Integer,
        places: 0,
        limit,
        sign,
    }
}
