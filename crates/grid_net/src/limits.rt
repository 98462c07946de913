//! The limits of a network and of a certificate, each with its unit.

/// The greatest number of nodes of a network.
pub const MOST_NODES: i128 = 2_000_000;

/// The greatest number of resistors of a network.
pub const MOST_RESISTORS: i128 = 4_000_000;

/// The greatest resistance, in nano-ohms: 1000 ohms. The least is 1 nano-ohm.
pub const GREATEST_RESISTANCE: i128 = 1_000_000_000_000;

/// The greatest magnitude of a pad's voltage, in yoctovolts: 10 volts.
pub const GREATEST_VOLTAGE: i128 = 10_000_000_000_000_000_000_000_000;

/// The greatest sum, over the loads as they are handed in, of the greater magnitude of the two ends, in femtoamperes:
/// 1000 amperes.
pub const GREATEST_LOAD: i128 = 1_000_000_000_000_000_000;

/// The greatest magnitude of a value of a certificate, in yoctovolts.
pub const GREATEST_VALUE: i128 = 10_000_000_000_000_000_000_000_000_000_000_000_000;

/// The greatest magnitude of a flow of a certificate, in femtoamperes.
pub const GREATEST_FLOW: i128 = 10_000_000_000_000_000_000_000_000_000_000;

/// How much the sums of a tight certificate may pass what the test asks: so many femtoamperes for the node, and as
/// many for each resistor at it.
pub const MOST_EXCESS: i128 = 64;
