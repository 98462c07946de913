//! The limits of the numbers of a technology. What passes one of them is refused.

/// The greatest length, in pm: 100 mm.
pub const LENGTH_LIMIT: u128 = 100_000_000_000;

/// The greatest area of a cut, in 10^-12 µm²: 100 µm².
pub const AREA_LIMIT: u128 = 100_000_000_000_000;

/// The greatest resistance of a square or of a cut, in nΩ: 10^9 Ω.
pub const RESISTANCE_LIMIT: u128 = 1_000_000_000_000_000_000;

/// The greatest density of a wire's current, in fA for each µm of its width: 10^6 mA.
pub const WIRE_DENSITY_LIMIT: u128 = 1_000_000_000_000_000_000;

/// The greatest density of a cut's current, in fA for each µm² of its area: 1000 mA.
pub const CUT_DENSITY_LIMIT: u128 = 1_000_000_000_000_000;
