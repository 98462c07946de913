//! Values printed as text.

ghost use Rattle.std.specs.Prelude.{◌≡◌, ℕ, ◌+◌, ◌-◌, ◌^◌, ◌<◌, ◌≤◌, ◌<ℤ◌, ℤ, pos, take, ◌++◌, decimal, OnOk, OnErr, vec_len, replicate, ◌/◌, ◌%◌};
ghost use Rattle.fixed_decimal.specs.inside.Rounded.{IsRounded};
ghost use Rattle.fixed_decimal.specs.Printed.{minus_text, padded, places_text, printed, IsRoundedDown, IsRoundedUp};

use itoa::Buffer;
use std::alloc::AllocError;

/// Whether a value is rounded down or up.
#[derive(Clone, Copy)]
enum Direction {
    Down,
    Up,
}

/// Appends the text of `value` units of 10^-places: a `-` where it is negative, the whole part, and where there are
/// places a point and exactly that many digits.
///
/// Error: want of memory, where `out` stays as it was.
pub fn print(out: &mut Vec<u8>, value: i128, places: u32) -> Result<(), AllocError>
    requires { places ≤ 30 }

    ensures ok { OnOk result (out.new.items ≡ out.old.items ++ printed value places) }
    ensures err { OnErr result (out.new.items ≡ out.old.items) }
{
    let start = out.len();
    let answer = append(out, value, places);
    if answer.is_err() {
        out.truncate(start);
    }
    answer
}

/// Appends the text of the greatest number of `shown` places that is not above `value` units of 10^-places.
///
/// Error: want of memory, where `out` stays as it was.
pub fn print_down(out: &mut Vec<u8>, value: i128, places: u32, shown: u32) -> Result<(), AllocError>
    requires shown { shown ≤ places }
    requires places { places ≤ 30 }

    ensures ok { OnOk result ((q : ℤ) × IsRoundedDown value (10 ^ (places - shown)) q
        × (out.new.items ≡ out.old.items ++ printed q shown)) }
    ensures err { OnErr result (out.new.items ≡ out.old.items) }
{
    print_rounded(out, value, places, shown, Direction::Down)
}

/// Appends the text of the least number of `shown` places that is not below `value` units of 10^-places.
///
/// Error: want of memory, where `out` stays as it was.
pub fn print_up(out: &mut Vec<u8>, value: i128, places: u32, shown: u32) -> Result<(), AllocError>
    requires shown { shown ≤ places }
    requires places { places ≤ 30 }

    ensures ok { OnOk result ((q : ℤ) × IsRoundedUp value (10 ^ (places - shown)) q
        × (out.new.items ≡ out.old.items ++ printed q shown)) }
    ensures err { OnErr result (out.new.items ≡ out.old.items) }
{
    print_rounded(out, value, places, shown, Direction::Up)
}

/// Appends the text of the value rounded in this direction to `shown` places.
fn print_rounded(
    out: &mut Vec<u8>,
    value: i128,
    places: u32,
    shown: u32,
    direction: Direction,
) -> Result<(), AllocError>
    requires shown { shown ≤ places }
    requires places { places ≤ 30 }
    ensures ok { OnOk result ((q : ℤ) × IsRounded direction value (10 ^ (places - shown)) q
        × (out.new.items ≡ out.old.items ++ printed q shown)) }
    ensures err { OnErr result (out.new.items ≡ out.old.items) }
{
    print(
        out,
        rounded(value, 10i128.pow(places - shown), direction),
        shown,
    )
}

/// The value rounded in this direction to a whole number of units.
fn rounded(value: i128, unit: i128, direction: Direction) -> i128
    requires { pos 0 <ℤ unit }
    ensures { (u : ℕ) → unit ≡ pos u → IsRounded direction value u result }
{
    match direction {
        Direction::Down => rounded_down(value, unit),
        Direction::Up => rounded_up(value, unit),
    }
}

/// The greatest whole number of units that is not above the value.
fn rounded_down(value: i128, unit: i128) -> i128
    requires { pos 0 <ℤ unit }
    ensures { (u : ℕ) → unit ≡ pos u → IsRoundedDown value u result }
{
    value.div_euclid(unit)
}

/// The least whole number of units that is not below the value.
fn rounded_up(value: i128, unit: i128) -> i128
    requires { pos 0 <ℤ unit }
    ensures { (u : ℕ) → unit ≡ pos u → IsRoundedUp value u result }
{
    let below = value.div_euclid(unit);
    if value.rem_euclid(unit) == 0 {
        below
    } else {
        below + 1
    }
}

/// `print`, but at an error `out` may have grown.
fn append(out: &mut Vec<u8>, value: i128, places: u32) -> Result<(), AllocError>
    requires { places ≤ 30 }

    ensures ok { OnOk result (out.new.items ≡ out.old.items ++ printed value places) }
    ensures err { OnErr result (take (vec_len out.old) out.new.items ≡ out.old.items) }
{
    let magnitude = value.unsigned_abs();
    if value < 0 {
        out.push(b'-')?;
    }
    append_number(out, whole_of(magnitude, places))?;
    append_places(out, magnitude, places)
}

/// How many whole units `n` units of 10^-places are. With 9 places and a number of 64 bits no wide division is made.
fn whole_of(n: u128, places: u32) -> u128
    requires { places ≤ 30 }
    ensures { result ≡ n / 10 ^ places }
{
    if places == 0 {
        return n;
    }
    if places == 9 && n <= u64::MAX as u128 {
        return (n as u64 / 1_000_000_000) as u128;
    }
    n / 10u128.pow(places)
}

/// What `n` units of 10^-places have behind the point.
fn behind_point(n: u128, places: u32) -> u128
    requires { places ≤ 30 }
    ensures { result ≡ n % 10 ^ places }
{
    if places == 9 && n <= u64::MAX as u128 {
        return (n as u64 % 1_000_000_000) as u128;
    }
    n % 10u128.pow(places)
}

/// Appends the digits of `n`.
fn append_number(out: &mut Vec<u8>, n: u128) -> Result<(), AllocError>
    ensures ok { OnOk result (out.new.items ≡ out.old.items ++ decimal n) }
    ensures err { OnErr result (out.new.items ≡ out.old.items) }
{
    if n > u64::MAX as u128 {
        return append_wide(out, n);
    }
    let mut buffer = Buffer::new();
    out.extend_from_slice(buffer.format(n as u64).as_bytes())
}

/// Appends the digits of a number beyond 64 bits.
fn append_wide(out: &mut Vec<u8>, n: u128) -> Result<(), AllocError>
    ensures ok { OnOk result (out.new.items ≡ out.old.items ++ decimal n) }
    ensures err { OnErr result (out.new.items ≡ out.old.items) }
{
    let mut buffer = Buffer::new();
    out.extend_from_slice(buffer.format(n).as_bytes())
}

/// Appends the point and the places of `n` units of 10^-places. At an error `out` may have grown.
fn append_places(out: &mut Vec<u8>, n: u128, places: u32) -> Result<(), AllocError>
    requires { places ≤ 30 }

    ensures ok { OnOk result (out.new.items ≡ out.old.items ++ places_text n places) }
    ensures err { OnErr result (take (vec_len out.old) out.new.items ≡ out.old.items) }
{
    if places == 0 {
        return Ok(());
    }
    out.push(b'.')?;
    append_padded(out, behind_point(n, places), places)
}

/// Appends the digits of `n`, with zeros before them up to so many digits. At an error `out` may have grown.
fn append_padded(out: &mut Vec<u8>, n: u128, count: u32) -> Result<(), AllocError>
    requires { count ≤ 30 }

    ensures ok { OnOk result (out.new.items ≡ out.old.items ++ padded count n) }
    ensures err { OnErr result (take (vec_len out.old) out.new.items ≡ out.old.items) }
{
    let mut buffer = Buffer::new();
    let digits = buffer.format(n).as_bytes();
    append_zeros(out, (count as usize).saturating_sub(digits.len()))?;
    out.extend_from_slice(digits)
}

/// The most zeros that stand before a number.
const ZEROS: [u8; 30] = [b'0'; 30];

/// Appends so many zeros.
fn append_zeros(out: &mut Vec<u8>, count: usize) -> Result<(), AllocError>
    requires { count ≤ 30 }

    ensures ok { OnOk result (out.new.items ≡ out.old.items ++ replicate count 48) }
    ensures err { OnErr result (out.new.items ≡ out.old.items) }
{
    out.extend_from_slice(&ZEROS[..count])
}
