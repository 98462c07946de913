use thiserror::Error;

/// Why a text has no value within its limit.
#[derive(Clone, Copy, Debug, PartialEq, Eq, Error)]
pub enum DecimalError {
    /// The text has not the form of a number.
    #[error("not a number")]
    NotNumber,
    /// The number is other than 0, and rounds to 0.
    #[error("a number other than 0 that rounds to 0")]
    Vanishes,
    /// The rounded number's magnitude is above the limit.
    #[error("a number above the limit")]
    Range,
}
