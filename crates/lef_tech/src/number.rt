//! The numbers of a technology.
ghost use Rattle.std.specs.Prelude.{◌≡◌, ◌<◌, ◌^◌};
ghost use Rattle.lef_tech.specs.Number.{place_of};
ghost use Rattle.number_place.specs.Place.{CanRead};

use crate::limits::{
    AREA_LIMIT, CUT_DENSITY_LIMIT, LENGTH_LIMIT, RESISTANCE_LIMIT, WIRE_DENSITY_LIMIT,
};
use number_place::{NumberForm, NumberPlace, NumberSign};

/// What a number stands for.
#[derive(Clone, Copy, Debug)]
pub(crate) enum Quantity {
    /// A length in pm.
    Length,
    /// A coordinate of a corner in pm.
    Corner,
    /// A resistance in nΩ.
    Resistance,
    /// The density of a wire's current in fA for each µm of width.
    WireDensity,
    /// The density of a cut's current in fA for each µm² of area.
    CutDensity,
    /// The area of a cut in 10^-12 µm².
    Area,
    /// How many units a micrometre has.
    Microns,
}

/// The most units that a micrometre has.
const MICRONS_LIMIT: u128 = 20_000;

/// The place of a decimal number that is not below 0.
fn decimal(places: u32, limit: u128) -> NumberPlace
    ensures { result ≡ record { form = NumberForm.Decimal; places = places; limit = limit; sign = NumberSign.NotNegative } }
{
    NumberPlace {
        form: NumberForm::Decimal,
        places,
        limit,
        sign: NumberSign::NotNegative,
    }
}

/// The place of a number.
pub(crate) fn place_of(quantity: Quantity) -> NumberPlace
    ensures is { result ≡ place_of quantity }
    ensures readable { CanRead result }
    ensures small { result.limit < 2 ^ 63 }
{
    match quantity {
        Quantity::Length => decimal(6, LENGTH_LIMIT),
        Quantity::Corner => NumberPlace {
            form: NumberForm::Decimal,
            places: 6,
            limit: LENGTH_LIMIT,
            sign: NumberSign::Any,
        },
        Quantity::Resistance => decimal(9, RESISTANCE_LIMIT),
        Quantity::WireDensity => decimal(12, WIRE_DENSITY_LIMIT),
        Quantity::CutDensity => decimal(12, CUT_DENSITY_LIMIT),
        Quantity::Area => decimal(12, AREA_LIMIT),
        Quantity::Microns => NumberPlace {
            form: NumberForm::Integer,
            places: 0,
            limit: MICRONS_LIMIT,
            sign: NumberSign::Positive,
        },
    }
}
