//! The lengths of a LEF library.
ghost use Rattle.std.specs.Prelude.{◌≡◌};
ghost use Rattle.lef_cells.specs.Number.{length};

use number_place::{NumberForm, NumberPlace, NumberSign};

/// The greatest length, in pm: 100 mm.
pub const LENGTH_LIMIT: u128 = 100_000_000_000;

/// Micrometres in pm, not below 0.
pub(crate) const LENGTH: NumberPlace = NumberPlace {
    form: NumberForm::Decimal,
    places: 6,
    limit: LENGTH_LIMIT,
    sign: NumberSign::NotNegative,
};
