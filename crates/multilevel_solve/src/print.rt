//! Prints: numbers that are nearly always different for different networks.

use grid_net::Net;

/// The print of a network's resistors and of the nodes that have pads. The pads' voltages and the loads are not in it.
#[derive(Clone, Copy, PartialEq, Eq)]
pub struct Print {
    first: u64,
    second: u64,
}

/// Odd numbers without a pattern, by which what is printed is mixed.
const FIRST: u64 = 0x9e37_79b9_7f4a_7c15;

const SECOND: u64 = 0xd6e8_feb8_6659_fd93;

/// A number mixed into a print.
#[inline(always)]
fn mixed(print: u64, number: u64, by: u64) -> u64 {
    let product = (print ^ number).wrapping_mul(by);
    product ^ (product >> 32)
}

/// The low word of a number.
#[inline(always)]
fn low(number: i128) -> u64 {
    (number.cast_unsigned() & 0xffff_ffff_ffff_ffff) as u64
}

impl Print {
    // With two more numbers, each of which both parts have.
    #[inline(always)]
    fn with(self, one: u64, other: u64) -> Print {
        Print {
            first: mixed(self.first, one ^ other.wrapping_mul(SECOND), FIRST),
            second: mixed(self.second, other ^ one.wrapping_mul(FIRST), SECOND),
        }
    }

    /// The print of a network.
    pub fn of(net: &Net) -> Print {
        let mut print = Print {
            first: net.nodes() as u64,
            second: net.resistors().len() as u64,
        };
        for resistor in net.resistors() {
            let ends = ((resistor.a as u64) << 32) | resistor.b as u64;
            print = print.with(ends, low(resistor.ohms));
        }
        for pad in net.pads() {
            print = print.with(pad.node as u64, 0);
        }
        print
    }

    /// The mark of a proposal, which is not 0.
    pub fn mark(self, proposal: u64) -> i128 {
        let high = mixed(self.second, proposal, SECOND);
        ((((high as u128) << 64) | self.first as u128) | 1).cast_signed()
    }
}
