//! The laws, on functions that do nothing.
ghost use Rattle.std.specs.Prelude.{ℕ, ◌^◌, ◌<◌, ◌≤◌, ℤ, List, unsigned_abs, Ok};
ghost use Rattle.std.specs.Fmt.{signed_decimal};
ghost use Rattle.number_place.specs.declared.place.NumberSign.{NumberSign as Sign};
ghost use Rattle.number_place.specs.Place.{IsNumberAt, HasSign};
ghost use Rattle.reading.specs.Pattern.{joined};
ghost use Rattle.written_words.specs.Numbers.{whole, IsNumeric};
ghost use Rattle.written_words.specs.Spelled.{Written, AllWritten, IsSeen, text_bytes};

use fixed_decimal::{texts_have_one_answer, values_keep_signs};

/// A text of lines is split into the words of the lines, one line after the other, and then the end of the text.
pub fn written_lines_are_words()
    ensures { (lines : List (List Written)) → AllWritten lines → IsSeen (text_bytes lines) (joined lines) }
{}

/// A whole number that is written is one word, and is read as itself in a place whose sign and limit it keeps.
pub fn written_numbers_are_read()
    ensures value { (sign : Sign) (v : ℤ) (limit : ℕ) → HasSign sign v → unsigned_abs v ≤ limit → limit < 10 ^ 64 →
        IsNumberAt (whole limit sign) (signed_decimal v) (Ok v) }
    ensures word { (v : ℤ) → unsigned_abs v < 10 ^ 64 → IsNumeric (signed_decimal v) }
{
    texts_have_one_answer();
    values_keep_signs();
}
