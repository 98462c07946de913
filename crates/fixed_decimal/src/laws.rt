//! Laws of the definitions, each on a function that does nothing.

ghost use Rattle.std.specs.Prelude.{◌≡◌, ℕ, ◌^◌, ◌<◌, ◌≤◌, ◌↔◌, ◌≤ℤ◌, ◌++◌, List, ℤ, pos, unsigned_abs, length, All, Result, Ok};
ghost use Rattle.std.specs.Char.{IsAsciiAlphabetic};
ghost use Rattle.fixed_decimal.specs.declared.error.DecimalError.{DecimalError};
ghost use Rattle.fixed_decimal.specs.Number.{Number, IsDecimal, IsNegative, Spelling, IsSpelling, spelling_text};
ghost use Rattle.fixed_decimal.specs.Spice.{IsSpice};
ghost use Rattle.fixed_decimal.specs.Integer.{IsInteger};
ghost use Rattle.fixed_decimal.specs.Value.{DecimalValue, SpiceValue, DecimalReads, SpiceReads, IsSpiceNumber, IsAnswer, StandsFor};
ghost use Rattle.fixed_decimal.specs.Printed.{printed, IsRoundedDown, IsRoundedUp};

/// A text stands for at most one number, and has at most one value at so many places.
pub fn texts_have_one_value()
    ensures decimal_number { (text : List ℕ) (m n : Number) → IsDecimal text m → IsDecimal text n → m ≡ n }
    ensures spice_number { (text : List ℕ) (m n : Number) → IsSpice text m → IsSpice text n → m ≡ n }
    ensures decimal_value { (places : ℕ) (text : List ℕ) (v w : ℤ) → DecimalValue places text v →
        DecimalValue places text w → v ≡ w }
    ensures spice_value { (places : ℕ) (text : List ℕ) (v w : ℤ) → SpiceValue places text v →
        SpiceValue places text w → v ≡ w }
{}

/// A text has at most one answer, and so it is read as at most one value. `read` and `read_spice` say that it has one.
pub fn texts_have_one_answer()
    ensures decimal { (places limit : ℕ) (text : List ℕ) (r s : Result ℤ DecimalError) →
        IsAnswer IsDecimal places limit text r → IsAnswer IsDecimal places limit text s → r ≡ s }
    ensures spice { (places limit : ℕ) (text : List ℕ) (r s : Result ℤ DecimalError) →
        IsAnswer IsSpice places limit text r → IsAnswer IsSpice places limit text s → r ≡ s }
    ensures integer { (places limit : ℕ) (text : List ℕ) (r s : Result ℤ DecimalError) →
        IsAnswer IsInteger places limit text r → IsAnswer IsInteger places limit text s → r ≡ s }
    ensures decimal_reads { (places limit : ℕ) (text : List ℕ) (v w : ℤ) → DecimalReads places limit text v →
        DecimalReads places limit text w → v ≡ w }
    ensures spice_reads { (places limit : ℕ) (text : List ℕ) (v w : ℤ) → SpiceReads places limit text v →
        SpiceReads places limit text w → v ≡ w }
{}

/// A text that is a number is one word: it is not empty, and each byte is above a blank (32), so that it has no blank,
/// tab, line feed or carriage return. What it is read as is within the limit.
pub fn numbers_are_words()
    ensures some { (text : List ℕ) → IsSpiceNumber text → 0 < length text }
    ensures no_white { (text : List ℕ) → IsSpiceNumber text → All (λ c. 32 < c) text }
    ensures within { (places limit : ℕ) (text : List ℕ) (v : ℤ) → SpiceReads places limit text v →
        unsigned_abs v ≤ limit }
{}

/// The number in front of the letters is the longest one at the front of the text.
pub fn numbers_are_longest()
    ensures { (s t : Spelling) (letters rest : List ℕ) → All IsAsciiAlphabetic letters → IsSpelling t →
        spelling_text s ++ letters ≡ spelling_text t ++ rest → length (spelling_text t) ≤ length (spelling_text s) }
{}

/// A number without a scale is one with the scale 1.
pub fn decimals_are_spice_numbers()
    ensures { (text : List ℕ) (n : Number) → IsDecimal text n → IsSpice text n }
{}

/// A value that is printed reads back as itself.
pub fn printed_values_read_back()
    ensures { (value : ℤ) (places limit : ℕ) → places ≤ 30 → limit ≤ 10 ^ 37 → unsigned_abs value ≤ limit →
        DecimalReads places limit (printed value places) value }
{}

/// A value is rounded down to one number of units, and up to one.
pub fn roundings_are_unique()
    ensures down { (value : ℤ) (unit : ℕ) (q r : ℤ) → IsRoundedDown value unit q → IsRoundedDown value unit r → q ≡ r }
    ensures up { (value : ℤ) (unit : ℕ) (q r : ℤ) → IsRoundedUp value unit q → IsRoundedUp value unit r → q ≡ r }
{}

/// A value that is read is not below 0 exactly where its number is not.
pub fn values_keep_signs()
    ensures decimal { (places limit : ℕ) (text : List ℕ) (v : ℤ) → DecimalReads places limit text v →
        (pos 0 ≤ℤ v) ↔ (¬ StandsFor IsDecimal text IsNegative) }
    ensures spice { (places limit : ℕ) (text : List ℕ) (v : ℤ) → SpiceReads places limit text v →
        (pos 0 ≤ℤ v) ↔ (¬ StandsFor IsSpice text IsNegative) }
    ensures integer { (places limit : ℕ) (text : List ℕ) (v : ℤ) → IsAnswer IsInteger places limit text (Ok v) →
        (pos 0 ≤ℤ v) ↔ (¬ StandsFor IsInteger text IsNegative) }
{}
