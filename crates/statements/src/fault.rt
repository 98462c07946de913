//! The fault that the words of a statement show.
ghost use Rattle.std.specs.Prelude.{◌≡◌, true, false, IfOk, IfErr};
ghost use Rattle.std.specs.List.{list_all};
ghost use Rattle.std.specs.Char.{is_ascii_digit};
ghost use Rattle.statements.specs.Fault.{is_whole as whole};

use reading::{Found, Word};

/// What is wrong with a statement.
#[derive(Clone, Copy, Debug, PartialEq, Eq)]
pub enum Kind {
    /// The number is not written with digits alone.
    NotWhole,
}

/// Whether each byte is a digit.
fn has_only_digits(text: &[u8]) -> bool
    ensures { result ≡ list_all is_ascii_digit text.now }
{
    text.iter().all(|byte| byte.is_ascii_digit())
}

/// Whether the word is one digit or more, and nothing else.
pub(crate) fn is_whole(text: &[u8]) -> bool
    ensures { result ≡ whole text.now }
{
    !text.is_empty() && has_only_digits(text)
}

/// The number of a statement, or why it is none.
pub(crate) fn whole_number(number: &Word<'_>) -> Result<(), Found<Kind>>
    ensures whole { IfOk result (λ _. whole number.now.text.now ≡ true) }
    ensures fault { IfErr result (λ a. (whole number.now.text.now ≡ false) × (a ≡ record { at = 2; kind = Kind.NotWhole })) }
{
    if is_whole(number.text) {
        return Ok(());
    }
    Err(Found {
        at: 2,
        kind: Kind::NotWhole,
    })
}
