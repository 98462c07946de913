//! Division of whole numbers rounded down and rounded up, with its laws.
#![tactic(auto)]

ghost use Rattle.std.specs.Prelude.{◌≡◌, ℤ, pos, ◌≤ℤ◌};
ghost use Rattle.rounding.specs.Rounding.{IsFloor, IsCeiling, floor_div, ceil_div, quotient};

/// Which way a quotient that is no whole number is rounded.
#[derive(Clone, Copy, Debug, PartialEq, Eq)]
pub enum Round {
    Down,
    Up,
}

/// The law of `floor_div`: for a positive divisor it is the floor of the fraction, and no other number is.
pub fn floor_law()
    ensures holds { (z r : ℤ) → pos 1 ≤ℤ r → IsFloor z r (floor_div z r) }
    ensures unique { (z r f g : ℤ) → pos 1 ≤ℤ r → IsFloor z r f → IsFloor z r g → f ≡ g }
{}

/// The law of `ceil_div`: for a positive divisor it is the ceiling of the fraction, and no other number is.
pub fn ceiling_law()
    ensures holds { (z r : ℤ) → pos 1 ≤ℤ r → IsCeiling z r (ceil_div z r) }
    ensures unique { (z r f g : ℤ) → pos 1 ≤ℤ r → IsCeiling z r f → IsCeiling z r g → f ≡ g }
{}

/// `z / r` rounded, by a single division.
#[inline]
pub fn divide(round: Round, z: i128, r: i128) -> i128
    requires { pos 1 ≤ℤ r }
    ensures { result ≡ quotient round z r }
{
    let quotient = z / r;
    let product = quotient * r;
    match round {
        Round::Down => if product > z { quotient - 1 } else { quotient },
        Round::Up => if product < z { quotient + 1 } else { quotient },
    }
}

/// `z / r` rounded down.
#[inline]
pub fn div_floor(z: i128, r: i128) -> i128
    requires { pos 1 ≤ℤ r }
    ensures { result ≡ floor_div z r }
{
    divide(Round::Down, z, r)
}

/// `z / r` rounded up.
#[inline]
pub fn div_ceil(z: i128, r: i128) -> i128
    requires { pos 1 ≤ℤ r }
    ensures { result ≡ ceil_div z r }
{
    divide(Round::Up, z, r)
}

#[cfg(test)]
mod tests {
    use super::*;

    #[test]
    fn divisions_round_outward(rt: HostRuntime) {
        let least = i128::MIN;
        for (z, r, down, up) in [
            (7, 2, 3, 4),
            (-7, 2, -4, -3),
            (6, 2, 3, 3),
            (-6, 2, -3, -3),
            (0, 5, 0, 0),
            (-1, 1000000000000, -1, 0),
            (1, 1000000000000, 0, 1),
            (least, 1, least, least),
        ] {
            assert_eq!(rt; div_floor(z, r), down, "{z} / {r} rounded down");
            assert_eq!(rt; div_ceil(z, r), up, "{z} / {r} rounded up");
        }
    }
}
