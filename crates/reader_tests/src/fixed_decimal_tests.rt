//! Values from Python's `decimal` module: texts, what `read` answers, and what `read_spice` answers.

ghost use Rattle.std.specs.Prelude.{◌≤◌, ◌^◌};

use crate::same::{same, same_at};
use DecimalError::{NotNumber, Range, Vanishes};
use fixed_decimal::*;
use std::alloc::{AllocError, Global};
use std::process::Abort;
use std::test::Fail;

/// A text, what `read` answers of it, and what `read_spice` does.
type Row = (
    &'static [u8],
    Result<i128, DecimalError>,
    Result<i128, DecimalError>,
);

const SCALES: [Row; 38] = [
    (b"1t", Err(NotNumber), Ok(1000000000000000000000000000)),
    (b"1Tera", Err(NotNumber), Ok(1000000000000000000000000000)),
    (b"2g", Err(NotNumber), Ok(2000000000000000000000000)),
    (b"2GHz", Err(NotNumber), Ok(2000000000000000000000000)),
    (b"3k", Err(NotNumber), Ok(3000000000000000000)),
    (b"3Kohm", Err(NotNumber), Ok(3000000000000000000)),
    (b"4m", Err(NotNumber), Ok(4000000000000)),
    (b"4mA", Err(NotNumber), Ok(4000000000000)),
    (b"5u", Err(NotNumber), Ok(5000000000)),
    (b"5UF", Err(NotNumber), Ok(5000000000)),
    (b"6n", Err(NotNumber), Ok(6000000)),
    (b"6Ns", Err(NotNumber), Ok(6000000)),
    (b"7p", Err(NotNumber), Ok(7000)),
    (b"7PF", Err(NotNumber), Ok(7000)),
    (b"8f", Err(NotNumber), Ok(8)),
    (b"8Farad", Err(NotNumber), Ok(8)),
    (b"9meg", Err(NotNumber), Ok(9000000000000000000000)),
    (b"9MEGohm", Err(NotNumber), Ok(9000000000000000000000)),
    (b"9mEg", Err(NotNumber), Ok(9000000000000000000000)),
    (b"1.5M", Err(NotNumber), Ok(1500000000000)),
    (b"1Me", Err(NotNumber), Ok(1000000000000)),
    (b"1Meter", Err(NotNumber), Ok(1000000000000)),
    (b"1mi", Err(NotNumber), Ok(1000000000000)),
    (b"1mil", Err(NotNumber), Err(NotNumber)),
    (b"1Mils", Err(NotNumber), Err(NotNumber)),
    (b"1MILx", Err(NotNumber), Err(NotNumber)),
    (b"1milk", Err(NotNumber), Err(NotNumber)),
    (b"5x", Err(NotNumber), Ok(5000000000000000)),
    (b"5Xk", Err(NotNumber), Ok(5000000000000000)),
    (b"5Ohm", Err(NotNumber), Ok(5000000000000000)),
    (b"1e5x", Err(NotNumber), Ok(100000000000000000000)),
    (b"1e5k", Err(NotNumber), Ok(100000000000000000000000)),
    (b"1e-3meg", Err(NotNumber), Ok(1000000000000000000)),
    (b"1E3M", Err(NotNumber), Ok(1000000000000000)),
    (b"1M", Err(NotNumber), Ok(1000000000000)),
    (b"1meg", Err(NotNumber), Ok(1000000000000000000000)),
    (b"1mA", Err(NotNumber), Ok(1000000000000)),
    (b"1.25e-05", Ok(12500000000), Ok(12500000000)),
];

const FORMS: [Row; 44] = [
    (b"-0", Ok(0), Ok(0)),
    (b"+0", Ok(0), Ok(0)),
    (b"0", Ok(0), Ok(0)),
    (b"+.5", Ok(500), Ok(500)),
    (b".5", Ok(500), Ok(500)),
    (b"5.", Ok(5000), Ok(5000)),
    (b"-5.", Ok(-5000), Ok(-5000)),
    (b"5.e3", Ok(5000000), Ok(5000000)),
    (b".5e1", Ok(5000), Ok(5000)),
    (b"1e", Err(NotNumber), Ok(1000)),
    (b"1e+", Err(NotNumber), Err(NotNumber)),
    (b"1e-", Err(NotNumber), Err(NotNumber)),
    (b"1E+x", Err(NotNumber), Err(NotNumber)),
    (b"e5", Err(NotNumber), Err(NotNumber)),
    (b".", Err(NotNumber), Err(NotNumber)),
    (b"+", Err(NotNumber), Err(NotNumber)),
    (b"-", Err(NotNumber), Err(NotNumber)),
    (b"", Err(NotNumber), Err(NotNumber)),
    (b".e5", Err(NotNumber), Err(NotNumber)),
    (b"+-1", Err(NotNumber), Err(NotNumber)),
    (b"--1", Err(NotNumber), Err(NotNumber)),
    (b"1..2", Err(NotNumber), Err(NotNumber)),
    (b"1.2.3", Err(NotNumber), Err(NotNumber)),
    (b"1 ", Err(NotNumber), Err(NotNumber)),
    (b" 1", Err(NotNumber), Err(NotNumber)),
    (b"1e5e5", Err(NotNumber), Err(NotNumber)),
    (b"1e5.", Err(NotNumber), Err(NotNumber)),
    (b"1_0", Err(NotNumber), Err(NotNumber)),
    (b"0x10", Err(NotNumber), Err(NotNumber)),
    (b"1,5", Err(NotNumber), Err(NotNumber)),
    (b"1e+5", Ok(100000000), Ok(100000000)),
    (b"1e-2", Ok(10), Ok(10)),
    (b"00012.50", Ok(12500), Ok(12500)),
    (b"1E+02k", Err(NotNumber), Ok(100000000)),
    (b"1e5-", Err(NotNumber), Err(NotNumber)),
    (b"1\n", Err(NotNumber), Err(NotNumber)),
    (b"inf", Err(NotNumber), Err(NotNumber)),
    (b"nan", Err(NotNumber), Err(NotNumber)),
    (b"5.k", Err(NotNumber), Ok(5000000)),
    (b"5.e", Err(NotNumber), Ok(5000)),
    (b"5.emeg", Err(NotNumber), Ok(5000)),
    (b".5meg", Err(NotNumber), Ok(500000000)),
    (b"1k5", Err(NotNumber), Err(NotNumber)),
    (b"1e1m1", Err(NotNumber), Err(NotNumber)),
];

const HALVES: [Row; 27] = [
    (b"0.5", Ok(1), Ok(1)),
    (b"-0.5", Ok(-1), Ok(-1)),
    (b"0.4", Err(Vanishes), Err(Vanishes)),
    (b"-0.4", Err(Vanishes), Err(Vanishes)),
    (b"1.5", Ok(2), Ok(2)),
    (b"-1.5", Ok(-2), Ok(-2)),
    (b"2.5", Ok(3), Ok(3)),
    (b"-2.5", Ok(-3), Ok(-3)),
    (
        b"0.49999999999999999999999999999999999999999",
        Err(Vanishes),
        Err(Vanishes),
    ),
    (b"0.50000000000000000000000000000000000000001", Ok(1), Ok(1)),
    (
        b"2.4999999999999999999999999999999999999999999",
        Ok(2),
        Ok(2),
    ),
    (
        b"-2.4999999999999999999999999999999999999999999",
        Ok(-2),
        Ok(-2),
    ),
    (b"999.5", Ok(1000), Ok(1000)),
    (b"1000.4", Ok(1000), Ok(1000)),
    (b"1000.5", Err(Range), Err(Range)),
    (b"-1000.5", Err(Range), Err(Range)),
    (b"1001", Err(Range), Err(Range)),
    (b"1000", Ok(1000), Ok(1000)),
    (b"-1001", Err(Range), Err(Range)),
    (b"5e-1", Ok(1), Ok(1)),
    (b"4e-1", Err(Vanishes), Err(Vanishes)),
    (b"50e-2", Ok(1), Ok(1)),
    (b"500m", Err(NotNumber), Ok(1)),
    (b"499m", Err(NotNumber), Err(Vanishes)),
    (b"-500m", Err(NotNumber), Ok(-1)),
    (b"0e5", Ok(0), Ok(0)),
    (b"0e-5", Ok(0), Ok(0)),
];

const PLACES: [Row; 13] = [
    (b"0.0000000000000000000000000000005", Ok(1), Ok(1)),
    (
        b"0.00000000000000000000000000000049",
        Err(Vanishes),
        Err(Vanishes),
    ),
    (b"1e-30", Ok(1), Ok(1)),
    (b"1e-31", Err(Vanishes), Err(Vanishes)),
    (b"5e-31", Ok(1), Ok(1)),
    (b"4999999999e-40", Err(Vanishes), Err(Vanishes)),
    (
        b"1234567.890123456789012345678901234567890123456789",
        Ok(1234567890123456789012345678901234568),
        Ok(1234567890123456789012345678901234568),
    ),
    (
        b"9999999.9999999999999999999999999999995",
        Ok(10000000000000000000000000000000000000),
        Ok(10000000000000000000000000000000000000),
    ),
    (
        b"9999999.9999999999999999999999999999994",
        Ok(9999999999999999999999999999999999999),
        Ok(9999999999999999999999999999999999999),
    ),
    (
        b"10000000",
        Ok(10000000000000000000000000000000000000),
        Ok(10000000000000000000000000000000000000),
    ),
    (
        b"-10000000",
        Ok(-10000000000000000000000000000000000000),
        Ok(-10000000000000000000000000000000000000),
    ),
    (
        b"10000000.0000000000000000000000000000004",
        Ok(10000000000000000000000000000000000000),
        Ok(10000000000000000000000000000000000000),
    ),
    (
        b"10000000.0000000000000000000000000000005",
        Err(Range),
        Err(Range),
    ),
];

const LONG: [Row; 17] = [
    (
        b"10000000000000000000000000000000000000",
        Ok(10000000000000000000000000000000000000),
        Ok(10000000000000000000000000000000000000),
    ),
    (
        b"10000000000000000000000000000000000000.49999999999",
        Ok(10000000000000000000000000000000000000),
        Ok(10000000000000000000000000000000000000),
    ),
    (
        b"10000000000000000000000000000000000000.5",
        Err(Range),
        Err(Range),
    ),
    (
        b"10000000000000000000000000000000000001",
        Err(Range),
        Err(Range),
    ),
    (
        b"99999999999999999999999999999999999995e-1",
        Ok(10000000000000000000000000000000000000),
        Ok(10000000000000000000000000000000000000),
    ),
    (
        b"99999999999999999999999999999999999994.9e-1",
        Ok(9999999999999999999999999999999999999),
        Ok(9999999999999999999999999999999999999),
    ),
    (
        b"123456789012345678901234567890123456789012345678901234567890e-23",
        Ok(1234567890123456789012345678901234568),
        Ok(1234567890123456789012345678901234568),
    ),
    (b"999999999999999999999999999999999999999e-39", Ok(1), Ok(1)),
    (
        b"499999999999999999999999999999999999999e-39",
        Err(Vanishes),
        Err(Vanishes),
    ),
    (b"500000000000000000000000000000000000000e-39", Ok(1), Ok(1)),
    (
        b"340282366920938463463374607431768211456",
        Err(Range),
        Err(Range),
    ),
    (
        b"340282366920938463463374607431768211456e-2",
        Ok(3402823669209384634633746074317682115),
        Ok(3402823669209384634633746074317682115),
    ),
    (
        b"1e37",
        Ok(10000000000000000000000000000000000000),
        Ok(10000000000000000000000000000000000000),
    ),
    (b"1e38", Err(Range), Err(Range)),
    (b"1e39", Err(Range), Err(Range)),
    (b"1e-38", Err(Vanishes), Err(Vanishes)),
    (b"1e-39", Err(Vanishes), Err(Vanishes)),
];

const EXPONENTS: [Row; 15] = [
    (b"1e999999999999", Err(Range), Err(Range)),
    (b"1e-999999999999", Err(Vanishes), Err(Vanishes)),
    (b"0e999999999999", Ok(0), Ok(0)),
    (b"0e-999999999999", Ok(0), Ok(0)),
    (b"-1e999999999999", Err(Range), Err(Range)),
    (
        b"1e99999999999999999999999999999999999999999999999999",
        Err(Range),
        Err(Range),
    ),
    (
        b"1e-99999999999999999999999999999999999999999999999999",
        Err(Vanishes),
        Err(Vanishes),
    ),
    (
        b"1e000000000000000000000000000000000000000000000000001",
        Ok(10000000000),
        Ok(10000000000),
    ),
    (b"1e-0", Ok(1000000000), Ok(1000000000)),
    (
        b"0.0000000000000000000000000000000000000000000000000000000000001e61",
        Ok(1000000000),
        Ok(1000000000),
    ),
    (
        b"100000000000000000000000000000000000000000000000000000000000e-59",
        Ok(1000000000),
        Ok(1000000000),
    ),
    (b"1e18446744073709551616", Err(Range), Err(Range)),
    (b"1e-18446744073709551616", Err(Vanishes), Err(Vanishes)),
    (
        b"1e340282366920938463463374607431768211457",
        Err(Range),
        Err(Range),
    ),
    (b"1e9223372036854775808", Err(Range), Err(Range)),
];

// Texts whose value is read from few digits, and others near them, at 6 places.
const FEW: [Row; 12] = [
    (
        b"99999999999999999",
        Ok(99999999999999999000000),
        Ok(99999999999999999000000),
    ),
    (
        b"100000000000000000",
        Ok(100000000000000000000000),
        Ok(100000000000000000000000),
    ),
    (b"-9.99999999999999999", Ok(-10000000), Ok(-10000000)),
    (
        b"12345678901.234567",
        Ok(12345678901234567),
        Ok(12345678901234567),
    ),
    (
        b"-123456789012.345678",
        Ok(-123456789012345678),
        Ok(-123456789012345678),
    ),
    (
        b"1234567890123.456789",
        Ok(1234567890123456789),
        Ok(1234567890123456789),
    ),
    (b"0.0000001", Err(Vanishes), Err(Vanishes)),
    (b"0.0000005", Ok(1), Ok(1)),
    (b"1.0000000", Ok(1000000), Ok(1000000)),
    (b"000000000000000000001.5", Ok(1500000), Ok(1500000)),
    (b"-0.000000", Ok(0), Ok(0)),
    (b"+0.070", Ok(70000), Ok(70000)),
];

fn check(rt: &impl Abort, rows: &[Row], places: u32, limit: u128)
    requires places { places ≤ 30 }
    requires limit { limit ≤ 10 ^ 37 }
{
    for (text, plain, scaled) in rows {
        same_at(rt, read(text, places, limit), *plain, ("read of", text));
        same_at(
            rt,
            read_spice(text, places, limit),
            *scaled,
            ("read_spice of", text),
        );
    }
}

#[test]
fn texts_of_a_table(rt: HostRuntime) {
    check(&rt, &SCALES, 15, 10u128.pow(30));
    check(&rt, &FORMS, 3, 10u128.pow(9));
    check(&rt, &HALVES, 0, 1000);
    check(&rt, &PLACES, 30, 10u128.pow(37));
    check(&rt, &LONG, 0, 10u128.pow(37));
    check(&rt, &EXPONENTS, 9, 10u128.pow(30));
    check(&rt, &FEW, 6, 10u128.pow(30));
}

#[test]
fn spice_scales(rt: HostRuntime) {
    let limit = 1_000_000_000_000_000_000_000_000_000_000;
    same(&rt, read_spice(b"1M", 15, limit), Ok(1_000_000_000_000));
    same(
        &rt,
        read_spice(b"1meg", 15, limit),
        Ok(1_000_000_000_000_000_000_000),
    );
    same(&rt, read_spice(b"1mA", 15, limit), Ok(1_000_000_000_000));
    same(&rt, read_spice(b"1.25e-05", 15, limit), Ok(12_500_000_000));
    same(&rt, read_spice(b"1mil", 15, limit), Err(NotNumber));
}

#[test]
fn decimals_at_the_edges(rt: HostRuntime) -> Result<(), Fail> {
    same(&rt, read(b"0.5", 0, 1000), Ok(1));
    same(&rt, read(b"-0.5", 0, 1000), Ok(-1));
    same(&rt, read(b"0.4", 0, 1000), Err(Vanishes));
    same(&rt, read(b".", 0, 1000), Err(NotNumber));
    same(&rt, read(b"1001", 0, 1000), Err(Range));
    let alloc = rt.alloc();
    let mut out = Vec::new(alloc);
    print(&mut out, -5, 3)?;
    same(&rt, out.as_slice(), b"-0.005".as_slice());
    out.clear();
    print_down(&mut out, -5, 3, 2)?;
    same(&rt, out.as_slice(), b"-0.01".as_slice());
    out.clear();
    print_up(&mut out, -5, 3, 2)?;
    same(&rt, out.as_slice(), b"0.00".as_slice());
    Ok(())
}

/// A value, its places, the places shown, and what `print`, `print_down` and `print_up` append.
const PRINTED: [(i128, u32, u32, &str, &str, &str); 19] = [
    (-5, 3, 2, "-0.005", "-0.01", "0.00"),
    (5, 3, 2, "0.005", "0.00", "0.01"),
    (0, 0, 0, "0", "0", "0"),
    (-1, 0, 0, "-1", "-1", "-1"),
    (-7, 1, 0, "-0.7", "-1", "0"),
    (1234567, 6, 3, "1.234567", "1.234", "1.235"),
    (-1234567, 6, 3, "-1.234567", "-1.235", "-1.234"),
    (1000, 3, 0, "1.000", "1", "1"),
    (-1000, 3, 2, "-1.000", "-1.00", "-1.00"),
    (999, 3, 0, "0.999", "0", "1"),
    (-999, 3, 0, "-0.999", "-1", "0"),
    (
        10000000000000000000000000000000000000,
        30,
        24,
        "10000000.000000000000000000000000000000",
        "10000000.000000000000000000000000",
        "10000000.000000000000000000000000",
    ),
    (
        1,
        30,
        30,
        "0.000000000000000000000000000001",
        "0.000000000000000000000000000001",
        "0.000000000000000000000000000001",
    ),
    (
        -1,
        30,
        29,
        "-0.000000000000000000000000000001",
        "-0.00000000000000000000000000001",
        "0.00000000000000000000000000000",
    ),
    (
        170141183460469231731687303715884105727,
        0,
        0,
        "170141183460469231731687303715884105727",
        "170141183460469231731687303715884105727",
        "170141183460469231731687303715884105727",
    ),
    (
        -170141183460469231731687303715884105728,
        0,
        0,
        "-170141183460469231731687303715884105728",
        "-170141183460469231731687303715884105728",
        "-170141183460469231731687303715884105728",
    ),
    (
        170141183460469231731687303715884105727,
        30,
        0,
        "170141183.460469231731687303715884105727",
        "170141183",
        "170141184",
    ),
    (
        -170141183460469231731687303715884105728,
        30,
        3,
        "-170141183.460469231731687303715884105728",
        "-170141183.461",
        "-170141183.460",
    ),
    (101, 2, 1, "1.01", "1.0", "1.1"),
];

#[test]
fn printed_values(rt: HostRuntime) -> Result<(), Fail> {
    let alloc = rt.alloc();
    for (value, places, shown, text, down, up) in PRINTED {
        assert!(rt; shown <= places && places <= 30);
        let mut out = Vec::from_slice(alloc, b"x ")?;
        print(&mut out, value, places)?;
        out.push(b' ')?;
        print_down(&mut out, value, places, shown)?;
        out.push(b' ')?;
        print_up(&mut out, value, places, shown)?;
        let want = format!(in alloc; "x {text} {down} {up}")?;
        same(&rt, out.as_slice(), want.as_bytes());
    }
    Ok(())
}

/// `0.`, so many zeros, a 1 and the exponent.
fn after_zeros(alloc: Global, zeros: usize, exponent: &[u8]) -> Result<Vec<u8>, AllocError> {
    let mut text = Vec::from_slice(alloc, b"0.")?;
    text.resize(zeros, b'0')?;
    text.extend_from_slice(exponent)?;
    Ok(text)
}

#[test]
fn long_texts(rt: HostRuntime) -> Result<(), Fail> {
    let alloc = rt.alloc();
    let limit = 1_000_000;
    same(
        &rt,
        read(&after_zeros(alloc, 1002, b"1e1003")?, 3, limit),
        Ok(100_000),
    );
    same(
        &rt,
        read(&after_zeros(alloc, 1002, b"15e998")?, 3, limit),
        Ok(2),
    );
    same(
        &rt,
        read(&after_zeros(alloc, 1002, b"14e998")?, 3, limit),
        Ok(1),
    );
    same(
        &rt,
        read_spice(&after_zeros(alloc, 1002, b"1e995k")?, 3, limit),
        Ok(1),
    );
    same(
        &rt,
        read(&after_zeros(alloc, 1_000_000, b"1e999999")?, 3, limit),
        Ok(1000),
    );
    same(
        &rt,
        read(&vec![in alloc; b'9'; 1_000_000]?, 3, limit),
        Err(Range),
    );
    let mut text = vec![in alloc; b'3'; 1_000_000]?;
    text.extend_from_slice(b"e-999999")?;
    same(&rt, read(&text, 3, limit), Ok(3333));
    Ok(())
}

fn below_zero(text: &[u8]) -> bool {
    is_negative(text, read_spice(text, 3, 1_000_000))
}

#[test]
fn numbers_below_zero(rt: HostRuntime) {
    assert!(rt; below_zero(b"-2.5k"));
    assert!(rt; below_zero(b"-1e-99"));
    assert!(rt; below_zero(b"-1e99"));
    assert!(rt; !below_zero(b"-0.0"));
    assert!(rt; !below_zero(b"-x"));
    assert!(rt; !below_zero(b"1e99"));
    assert!(rt; !below_zero(b""));
}

// Whole numbers with the limit 1000, and what they are read as.
const INTEGERS: [(&[u8], Result<i128, DecimalError>); 14] = [
    (b"0", Ok(0)),
    (b"-0", Ok(0)),
    (b"007", Ok(7)),
    (b"1000", Ok(1000)),
    (b"-1000", Ok(-1000)),
    (b"1001", Err(DecimalError::Range)),
    (b"-1001", Err(DecimalError::Range)),
    (b"", Err(DecimalError::NotNumber)),
    (b"-", Err(DecimalError::NotNumber)),
    (b"+5", Err(DecimalError::NotNumber)),
    (b"--5", Err(DecimalError::NotNumber)),
    (b"1.0", Err(DecimalError::NotNumber)),
    (b"1e3", Err(DecimalError::NotNumber)),
    (b"5k", Err(DecimalError::NotNumber)),
];

#[test]
fn whole_numbers(rt: HostRuntime) {
    for (text, want) in INTEGERS {
        let answer = read_integer(text, 1000);
        same_at(&rt, answer, want, text);
    }
}

// Texts, and whether they have at most three digits before a point and two after it.
const SHORT: [(&[u8], bool); 16] = [
    (b"0", true),
    (b"999", true),
    (b"1000", false),
    (b"-12.34", true),
    (b"+12.34", true),
    (b"12.345", false),
    (b"12.", true),
    (b"12..", false),
    (b".5", false),
    (b"", false),
    (b"-", false),
    (b"--1", false),
    (b"1e2", false),
    (b"1.5k", false),
    (b"1.2.3", false),
    (b"x", false),
];

#[test]
fn short_numbers(rt: HostRuntime) {
    for (text, want) in SHORT {
        same_at(&rt, is_short(text, 3, 2), want, text);
    }
}
