//! The scale after a number.

ghost use Rattle.std.specs.Prelude.{◌≡◌, ℕ, ◌≤◌, false, List, ◌∷◌, codes, All, IsTrue, ◌↔◌, IfSome, IfNone};
ghost use Rattle.std.specs.Char.{IsAsciiAlphabetic};
ghost use Rattle.fixed_decimal.specs.Spice.{IsScaleText, begins_with, scale_of as the_scale};

/// A scale: the power of ten by which it multiplies, and that by which it divides.
#[derive(Clone, Copy)]
pub struct Scale {
    pub up: u32,
    pub down: u32,
}

impl Scale {
    /// The scale of a number with no letters after it.
    pub const ONE: Scale = Scale { up: 0, down: 0 };

    const fn times(power: u32) -> Scale
        ensures { result ≡ record { up = power; down = 0 } }
    {
        Scale { up: power, down: 0 }
    }

    const fn over(power: u32) -> Scale
        ensures { result ≡ record { up = 0; down = power } }
    {
        Scale { up: 0, down: power }
    }
}

/// Whether the letters begin with `prefix`, in either case.
fn begins(letters: &[u8], prefix: &[u8]) -> bool
    ensures { result ≡ begins_with prefix.now letters.now }
{
    letters[..prefix.len().min(letters.len())].eq_ignore_ascii_case(prefix)
}

fn are_letters(text: &[u8]) -> bool
    ensures { IsTrue result ↔ All IsAsciiAlphabetic text.now }
{
    text.iter().all(|byte| byte.is_ascii_alphabetic())
}

/// The scale that letters after a number mean. None where the text is not letters only, or begins with MIL.
pub fn scale_of(letters: &[u8]) -> Option<Scale>
    ensures text { IfSome result (λ scale. IsScaleText letters.now) }
    ensures value { IfSome result (λ scale. scale ≡ the_scale letters.now) }
    ensures none { IfNone result (¬ IsScaleText letters.now) }
    ensures up { IfSome result (λ scale. scale.up ≤ 12) }
    ensures down { IfSome result (λ scale. scale.down ≤ 15) }
{
    if !are_letters(letters) || begins(letters, b"mil") {
        return None;
    }
    if begins(letters, b"meg") {
        return Some(Scale::times(6));
    }
    match letters {
        [first, ..] => Some(letter_scale(*first)),
        [] => Some(Scale::ONE),
    }
}

/// The scale of letters that begin with this one, and not with MEG.
fn letter_scale(letter: u8) -> Scale
    ensures value { (letters : List ℕ) → begins_with (codes "meg") (letter ∷ letters) ≡ false →
        result ≡ the_scale (letter ∷ letters) }
    ensures up { result.up ≤ 12 }
    ensures down { result.down ≤ 15 }
{
    match letter.to_ascii_lowercase() {
        b't' => Scale::times(12),
        b'g' => Scale::times(9),
        b'k' => Scale::times(3),
        b'm' => Scale::over(3),
        b'u' => Scale::over(6),
        b'n' => Scale::over(9),
        b'p' => Scale::over(12),
        b'f' => Scale::over(15),
        _ => Scale::ONE,
    }
}
