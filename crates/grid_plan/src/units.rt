//! Lengths in units of the drawing.
//!
//! A number that does not fit is answered as want of memory. Lengths of 100 mm at 20000 units a micrometre fit, and so do the places in
//! lists of a text of 2^28 bytes.
ghost use Rattle.std.specs.Prelude.{◌≡◌, ◌*◌, ◌+ℤ◌, ◌-ℤ◌, IfOk, Some, pos};
ghost use Rattle.std.specs.Int.{div_ceil};
ghost use Rattle.grid_plan.specs.Resolved.{length_of};

use std::alloc::AllocError;
use via_arrays::PICOMETRES;

// The place of an entry as a number of 32 bits.
pub(crate) fn number(place: usize) -> Result<u32, AllocError>
    ensures { IfOk result (λ number. number ≡ place) }
{
    match u32::try_from(place) {
        Ok(number) => Ok(number),
        Err(_) => Err(AllocError),
    }
}

// A length in pm times the units of a micrometre.
pub(crate) fn scaled(units: u32, length: u64) -> u128
    ensures { result ≡ length * units }
{
    u128::from(length) * u128::from(units)
}

// A length in units, rounded down.
pub(crate) fn length_of(units: u32, length: u64) -> Result<i64, AllocError>
    ensures { IfOk result (λ z. z ≡ length_of units length) }
{
    whole(scaled(units, length) / u128::from(PICOMETRES))
}

// A length in units, rounded up.
pub(crate) fn rounded_up(units: u32, length: u64) -> Result<i64, AllocError>
    ensures { IfOk result (λ z. z ≡ pos (div_ceil (length * units) 1000000)) }
{
    whole(scaled(units, length).div_ceil(u128::from(PICOMETRES)))
}

fn whole(number: u128) -> Result<i64, AllocError>
    ensures { IfOk result (λ z. z ≡ pos number) }
{
    match i64::try_from(number) {
        Ok(number) => Ok(number),
        Err(_) => Err(AllocError),
    }
}

pub(crate) fn plus(a: i64, b: i64) -> Result<i64, AllocError>
    ensures { IfOk result (λ z. z ≡ a +ℤ b) }
{
    fit(a.checked_add(b))
}

pub(crate) fn minus(a: i64, b: i64) -> Result<i64, AllocError>
    ensures { IfOk result (λ z. z ≡ a -ℤ b) }
{
    fit(a.checked_sub(b))
}

// A number that fits.
pub(crate) fn fit(number: Option<i64>) -> Result<i64, AllocError>
    ensures { IfOk result (λ z. number ≡ Some z) }
{
    match number {
        Some(number) => Ok(number),
        None => Err(AllocError),
    }
}
