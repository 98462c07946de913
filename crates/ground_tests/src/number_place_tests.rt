//! The calls at each form and sign.
use crate::same::same_at;
use fixed_decimal::DecimalError;
use number_place::*;
use std::test::Fail;

// Texts with the form and the sign of their place, and what they are there.
const NUMBERS: [(NumberForm, NumberSign, &[u8], Result<i64, Refused>); 16] = [
    (NumberForm::Decimal, NumberSign::Any, b"-1.5e1", Ok(-15)),
    (
        NumberForm::Decimal,
        NumberSign::Any,
        b"1k",
        Err(Refused::Number(DecimalError::NotNumber)),
    ),
    (NumberForm::Scaled, NumberSign::Any, b"1k", Ok(1000)),
    (
        NumberForm::Scaled,
        NumberSign::Any,
        b"1m",
        Err(Refused::Number(DecimalError::Vanishes)),
    ),
    (
        NumberForm::Scaled,
        NumberSign::NotNegative,
        b"-1m",
        Err(Refused::Syntax),
    ),
    (
        NumberForm::Scaled,
        NumberSign::NotNegative,
        b"-2k",
        Err(Refused::Syntax),
    ),
    (NumberForm::Scaled, NumberSign::NotNegative, b"-0", Ok(0)),
    (
        NumberForm::Scaled,
        NumberSign::NotNegative,
        b"-x",
        Err(Refused::Number(DecimalError::NotNumber)),
    ),
    (
        NumberForm::Scaled,
        NumberSign::Positive,
        b"0.0",
        Err(Refused::Syntax),
    ),
    (
        NumberForm::Scaled,
        NumberSign::Positive,
        b"-0",
        Err(Refused::Syntax),
    ),
    (
        NumberForm::Scaled,
        NumberSign::Positive,
        b"0.1",
        Err(Refused::Number(DecimalError::Vanishes)),
    ),
    (NumberForm::Scaled, NumberSign::Positive, b"0.5", Ok(1)),
    (NumberForm::Integer, NumberSign::Any, b"-7", Ok(-7)),
    (
        NumberForm::Integer,
        NumberSign::Any,
        b"+7",
        Err(Refused::Number(DecimalError::NotNumber)),
    ),
    (
        NumberForm::Integer,
        NumberSign::NotNegative,
        b"-7",
        Err(Refused::Syntax),
    ),
    (
        NumberForm::Integer,
        NumberSign::Positive,
        b"1001",
        Err(Refused::Number(DecimalError::Range)),
    ),
];

#[test]
fn numbers_in_their_places(rt: HostRuntime) {
    for (form, sign, text, want) in NUMBERS {
        let place = NumberPlace {
            form,
            places: 0,
            limit: 1000,
            sign,
        };
        same_at(&rt, small_number_at(place, text), want, text);
    }
}
