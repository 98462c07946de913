ghost use Rattle.std.specs.Prelude.{◌<◌};
ghost use Rattle.fixed_decimal.specs.Value.{IsNearest};
ghost use Rattle.via_arrays.specs.Resistances.{IsResistance};

/// A resistance in nano-ohms out of a fraction of them: rounded to nearest, halves up, and at least 1.
///
/// The fraction of an array of cuts is the resistance of a cut over the number of cuts. That of a wire is the resistance
/// of a square times the wire's length, over its width.
pub fn resistance(numerator: u128, denominator: u128) -> u128
    requires some { 0 < denominator }
    ensures { IsResistance numerator denominator result }
{
    nearest(numerator, denominator).max(1)
}

fn nearest(numerator: u128, denominator: u128) -> u128
    requires some { 0 < denominator }
    ensures { IsNearest numerator denominator result }
{
    let whole = numerator / denominator;
    let rest = numerator % denominator;
    if rest < denominator - rest {
        whole
    } else {
        whole + 1
    }
}
