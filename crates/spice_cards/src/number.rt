//! The numbers of a netlist.
ghost use Rattle.std.specs.Prelude.{◌≡◌, ◌≤◌, ◌^◌};
ghost use Rattle.spice_cards.specs.Number.{ohms, volts, amperes, farads};

use number_place::{NumberForm, NumberPlace, NumberSign};

/// The greatest magnitude of a resistance as it is read, in nΩ: 10^21 Ω.
pub const OHMS_LIMIT: u128 = 1_000_000_000_000_000_000_000_000_000_000;

/// The greatest magnitude of a voltage as it is read, in yV: 1 MV.
pub const VOLTS_LIMIT: u128 = 1_000_000_000_000_000_000_000_000_000_000;

/// The greatest magnitude of a current as it is read, in fA: 1000 A.
pub const AMPERES_LIMIT: u128 = 1_000_000_000_000_000_000;

/// The greatest capacitance as it is read, in 10^-24 F: 10^6 F.
pub const FARADS_LIMIT: u128 = 1_000_000_000_000_000_000_000_000_000_000;

/// Ohms in nΩ. A resistance below 0 is refused by the network, not by the text.
pub(crate) const OHMS: NumberPlace = NumberPlace {
    form: NumberForm::Scaled,
    places: 9,
    limit: OHMS_LIMIT,
    sign: NumberSign::Any,
};

/// Volts in yV.
pub(crate) const VOLTS: NumberPlace = NumberPlace {
    form: NumberForm::Scaled,
    places: 24,
    limit: VOLTS_LIMIT,
    sign: NumberSign::Any,
};

/// Amperes in fA.
pub(crate) const AMPERES: NumberPlace = NumberPlace {
    form: NumberForm::Scaled,
    places: 15,
    limit: AMPERES_LIMIT,
    sign: NumberSign::Any,
};

/// Farads in 10^-24 F, not below 0.
pub(crate) const FARADS: NumberPlace = NumberPlace {
    form: NumberForm::Scaled,
    places: 24,
    limit: FARADS_LIMIT,
    sign: NumberSign::NotNegative,
};
