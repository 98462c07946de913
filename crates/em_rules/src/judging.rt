ghost use Rattle.std.specs.Prelude.{◌≡◌, ◌&&◌, ◌||◌, ◌≤ℤ◌, pos, neg_ℤ, int_le, int_lt, Some};
ghost use Rattle.em_rules.specs.Verdict.{verdict_by_ends, IsVerdict};

use crate::words::Verdict;

/// Whether the currents from `low` to `high`, ends included, keep a limit: whether they lie from `-limit` to `limit`,
/// ends included. It takes no memory.
///
/// All three numbers are in one unit, as femtoamperes. Of an interval of voltages with the supply's voltage taken off
/// and a limit of drops it tells the same.
pub fn verdict(low: i128, high: i128, limit: Option<u128>) -> Verdict
    ensures by_ends { result ≡ verdict_by_ends low high limit }
    ensures meaning { low ≤ℤ high → IsVerdict low high limit result }
{
    match limit {
        None => Verdict::NoLimit,
        Some(limit) => judged(low, high, limit),
    }
}

// The verdict on a limit that there is. No number of the interval's type passes a limit beyond that type.
fn judged(low: i128, high: i128, limit: u128) -> Verdict
    ensures { result ≡ verdict_by_ends low high (Some limit) }
{
    if limit > i128::MAX as u128 {
        return Verdict::Safe;
    }
    let greatest = limit as i128;
    if keeps(low, high, greatest) {
        Verdict::Safe
    } else if passes(low, high, greatest) {
        Verdict::Unsafe
    } else {
        Verdict::Undecided
    }
}

// Whether both ends keep a limit.
fn keeps(low: i128, high: i128, limit: i128) -> bool
    requires { pos 0 ≤ℤ limit }
    ensures { result ≡ (int_le (neg_ℤ limit) low && int_le high limit) }
{
    -limit <= low && high <= limit
}

// Whether the interval lies below or above what keeps a limit.
fn passes(low: i128, high: i128, limit: i128) -> bool
    requires { pos 0 ≤ℤ limit }
    ensures { result ≡ (int_lt high (neg_ℤ limit) || int_lt limit low) }
{
    high < -limit || limit < low
}
