//! The numbers of a bias file.
ghost use Rattle.std.specs.Prelude.{◌≡◌, ◌≤◌, ◌^◌};
ghost use Rattle.bias_file.specs.Number.{volts, drop_volts, amperes, micrometres};

use number_place::{NumberForm, NumberPlace, NumberSign};

/// The greatest potential, in yV: 10 V.
pub const VOLTS_LIMIT: u128 = 10_000_000_000_000_000_000_000_000;

/// Volts in yV, with a scale or none.
pub(crate) const VOLTS: NumberPlace = NumberPlace {
    form: NumberForm::Scaled,
    places: 24,
    limit: VOLTS_LIMIT,
    sign: NumberSign::Any,
};

/// The volts of a drop, which is not negative.
pub(crate) const DROP_VOLTS: NumberPlace = NumberPlace {
    form: NumberForm::Scaled,
    places: 24,
    limit: VOLTS_LIMIT,
    sign: NumberSign::NotNegative,
};

/// The greatest current, in fA: 1000 A.
pub const AMPERES_LIMIT: u128 = 1_000_000_000_000_000_000;

/// Amperes in fA, with a scale or none.
pub(crate) const AMPERES: NumberPlace = NumberPlace {
    form: NumberForm::Scaled,
    places: 15,
    limit: AMPERES_LIMIT,
    sign: NumberSign::NotNegative,
};

/// The farthest place, in pm: 100 mm.
pub const PLACE_LIMIT: u128 = 100_000_000_000;

/// Micrometres in pm, without a scale.
pub(crate) const MICROMETRES: NumberPlace = NumberPlace {
    form: NumberForm::Decimal,
    places: 6,
    limit: PLACE_LIMIT,
    sign: NumberSign::Any,
};
