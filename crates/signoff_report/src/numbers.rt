//! The numbers of a report.
ghost use Rattle.std.specs.Prelude.{◌≡◌, ◌<◌, ◌≤◌, ◌^◌, ◌++◌, ◌∷◌, [], pos, decimal, replicate, OnOk};
ghost use Rattle.fixed_decimal.specs.Printed.{printed, padded};
ghost use Rattle.signoff_report.specs.Report.{stated, stated_limit};

use fixed_decimal::print;
use itoa::Buffer;
use std::alloc::AllocError;

// Appends a value of nanovolts or nanoamperes with 9 places. One that fits 64 bits takes no wider arithmetic.
pub(crate) fn append_nano(out: &mut Vec<u8>, value: i128) -> Result<(), AllocError>
    ensures { OnOk result (out.new.items ≡ out.old.items ++ printed value 9) }
{
    print(out, value, 9)
}

// Appends a drop limit in yoctovolts with 24 places, or `none`.
pub(crate) fn append_drop(out: &mut Vec<u8>, drop: Option<i128>) -> Result<(), AllocError>
    ensures { OnOk result (out.new.items ≡ out.old.items ++ stated 24 drop) }
{
    match drop {
        None => out.extend_from_slice(b"none"),
        Some(drop) => print(out, drop, 24),
    }
}

// Appends a limit of a current in femtoamperes with 15 places, or `none`.
pub(crate) fn append_limit(out: &mut Vec<u8>, limit: Option<u128>) -> Result<(), AllocError>
    ensures { OnOk result (out.new.items ≡ out.old.items ++ stated_limit limit) }
{
    match limit {
        None => out.extend_from_slice(b"none"),
        Some(limit) => append_amperes(out, limit),
    }
}

/// A ampere has this many femtoamperes.
const AMPERE: u128 = 1_000_000_000_000_000;

// Appends femtoamperes with 15 places.
fn append_amperes(out: &mut Vec<u8>, value: u128) -> Result<(), AllocError>
    ensures { OnOk result (out.new.items ≡ out.old.items ++ printed (pos value) 15) }
{
    let mut buffer = Buffer::new();
    out.extend_from_slice(buffer.format(value / AMPERE).as_bytes())?;
    out.push(b'.')?;
    append_padded(out, (value % AMPERE) as u64, 15)?;
    Ok(())
}

// The most zeros that stand before a number.
const ZEROS: [u8; 15] = [b'0'; 15];

// Appends the digits of a number, with zeros before them up to so many digits.
fn append_padded(out: &mut Vec<u8>, n: u64, count: usize) -> Result<(), AllocError>
    requires { count ≤ 15 }
    ensures { OnOk result (out.new.items ≡ out.old.items ++ padded count n) }
{
    let mut buffer = Buffer::new();
    let digits = buffer.format(n).as_bytes();
    append_zeros(out, count.saturating_sub(digits.len()))?;
    out.extend_from_slice(digits)?;
    Ok(())
}

// Appends so many zeros.
fn append_zeros(out: &mut Vec<u8>, count: usize) -> Result<(), AllocError>
    requires { count ≤ 15 }
    ensures { OnOk result (out.new.items ≡ out.old.items ++ replicate count 48) }
{
    out.extend_from_slice(&ZEROS[..count])?;
    Ok(())
}

// Appends the number of a branch.
pub(crate) fn append_count(out: &mut Vec<u8>, count: u64) -> Result<(), AllocError>
    ensures { OnOk result (out.new.items ≡ out.old.items ++ decimal count) }
{
    let mut buffer = Buffer::new();
    out.extend_from_slice(buffer.format(count).as_bytes())
}
