//! A number between reading and rounding.

ghost use Rattle.std.specs.Prelude.{◌^◌, ◌<◌, min};

use crate::digits::Digits;

/// A number as it is read: its digits times 10^up over 10^down.
#[derive(Clone, Copy)]
pub struct Decimal {
    pub negative: bool,
    pub digits: Digits,
    pub up: u128,
    pub down: u128,
    ghost up_fits: { up < 10 ^ 23 },
    ghost down_fits: { down < 10 ^ 23 },
    ghost one_small: { min up down < 2 ^ 64 },
}
