use fixed_decimal::DecimalError;

/// How a number is written.
#[derive(Clone, Copy, Debug, PartialEq, Eq)]
pub enum NumberForm {
    /// Digits with at most one point, and an exponent or none: `1.5`, `-2e3`.
    Decimal,
    /// The same with a scale after it, or none: `1.5k`.
    Scaled,
    /// A `-` or none, and digits alone.
    Integer,
}

/// Which signs may stand in a place.
#[derive(Clone, Copy, Debug, PartialEq, Eq)]
pub enum NumberSign {
    Any,
    /// No number below 0. `-0` is 0.
    NotNegative,
    /// Neither 0 nor a number below it.
    Positive,
}

/// What a place asks of its number.
#[derive(Clone, Copy, Debug, PartialEq, Eq)]
pub struct NumberPlace {
    pub form: NumberForm,
    /// The number is read as a whole number of units of 10^-places.
    pub places: u32,
    /// The greatest magnitude, in these units.
    pub limit: u128,
    pub sign: NumberSign,
}

/// Why a text is refused in its place.
#[derive(Clone, Copy, Debug, PartialEq, Eq)]
pub enum Refused {
    /// It is a number of a sign that may not stand there, also one that vanishes or passes the limit.
    Syntax,
    /// It is no number of the form, or has no value within the limit.
    Number(DecimalError),
}
