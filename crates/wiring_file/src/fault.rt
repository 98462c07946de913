//! What the words of a unit say, or the faults that they show.
ghost use Rattle.std.specs.Prelude.{◌≡◌, ◌≢◌, ◌↔◌, ◌⊎◌, ◌∷◌, ◌++◌, [], pos, true, false, List, Ok, length, map, IsTrue};
ghost use Rattle.number_place.specs.Place.{IsNumberAt};
ghost use Rattle.reading.specs.Fault.{FindsValue};
ghost use Rattle.reading.specs.Grammar.{AreHeard};
ghost use Rattle.reading.specs.Word.{Token, token, heard_token};
ghost use Rattle.wiring_file.specs.declared.section.Section.TheVariants as sections;
ghost use Rattle.wiring_file.specs.Fault.{kind_of, IsRefusedAs, IsFlat, IsUnfitLine, IsUnfit, LastFault};
ghost use Rattle.wiring_file.specs.Number.{place_of};
ghost use Rattle.wiring_file.specs.Sort.{the, sort_of};
ghost use Rattle.wiring_file.specs.Standing.{standing};
ghost use Rattle.wiring_file.specs.inside.Held.{Holds};
ghost use Rattle.wiring_file.specs.inside.Value.{IsRefusedAt, SaysAt, says};

use crate::error::WiringKind;
use crate::held::Held;
use crate::number::{Quantity, number_at, read_number};
use crate::section::Section;
use crate::sort::{Sort, is_the};
use crate::unit::value_at;
use fixed_decimal::DecimalError;
use number_place::{Refused, texts_have_one_number};
use reading::{Heard, Word};

/// The kind of a number that is refused.
fn kind_of(quantity: Quantity, refused: Refused) -> WiringKind
    ensures { result ≡ kind_of quantity refused }
{
    match (quantity, refused) {
        (_, Refused::Syntax) => WiringKind::Syntax,
        (Quantity::Microns, Refused::Number(DecimalError::Range)) => WiringKind::Syntax,
        (_, Refused::Number(error)) => WiringKind::Number(error),
    }
}

/// The number of this kind that the text is, or why it is refused.
fn number_of(quantity: Quantity, text: &[u8]) -> Result<i64, WiringKind>
    ensures { FindsValue (IsRefusedAs quantity text.now)
        (λ value. IsNumberAt (place_of quantity) text.now (Ok value)) result }
{
    match read_number(quantity, text) {
        Ok(value) => Ok(value),
        Err(refused) => Err(kind_of(quantity, refused)),
    }
}

/// What the word says that has n words of a unit of the section before it: its number, or 0 where none stands there; or
/// why it is refused.
fn number_in(section: Section, n: usize, text: &[u8]) -> Result<i64, WiringKind>
    ensures { FindsValue (IsRefusedAt section n text.now) (SaysAt section n text.now) result }
{
    match number_at(section, n) {
        Some(quantity) => number_of(quantity, text),
        None => Ok(0),
    }
}

/// Whether the corners of the die have a coordinate in common.
fn is_flat(before: &[Heard<'_, i64>]) -> bool
    ensures { AreHeard (says sections.Die) [] before.now → length before.now ≡ 9 → (word : Token) →
        IsTrue result ↔ IsFlat (map heard_token before.now ++ word ∷ []) }
{
    texts_have_one_number();
    let x1 = value_at(2, before);
    let y1 = value_at(3, before);
    let x2 = value_at(6, before);
    let y2 = value_at(7, before);
    have_one(x1, y1, x2, y2)
}

/// Whether two points have a coordinate in common.
fn have_one(x1: i64, y1: i64, x2: i64, y2: i64) -> bool
    ensures { IsTrue result ↔ ((x1 ≡ x2) ⊎ (y1 ≡ y2)) }
{
    x1 == x2 || y1 == y2
}

/// Whether an entry is one too many, or the list ends with too few.
fn is_miscounted(count: u64, entries: u64, entry: bool) -> bool
    ensures { IsTrue result ↔ (((entry ≡ true) × (count ≡ entries)) ⊎ ((entry ≡ false) × (count ≢ entries))) }
{
    if entry {
        count == entries
    } else {
        count != entries
    }
}

/// Whether a line has a width after a line of its net that has a via.
fn has_late_width(placed: bool, width: i64) -> bool
    ensures { IsTrue result ↔ ((placed ≡ true) × (width ≢ pos 0)) }
{
    placed && width != 0
}

/// Whether a line without a width has another shape than STRIPE.
fn has_other_shape(width: i64, shape: Sort) -> bool
    ensures { IsTrue result ↔ ((width ≡ pos 0) × (the Sort.Stripe shape ≡ false)) }
{
    width == 0 && !is_the(Sort::Stripe, shape)
}

/// Whether a line without a width goes to another point, or one with a width has a via.
fn has_other_end(width: i64, end: Sort) -> bool
    ensures { IsTrue result ↔ (((width ≡ pos 0) × (the Sort.Open end ≡ true))
        ⊎ ((width ≢ pos 0) × (the Sort.Open end ≡ false))) }
{
    if is_the(Sort::Open, end) {
        width == 0
    } else {
        width != 0
    }
}

/// Whether the last word of a line, which has this sort and says this number, does not fit what stands before it.
fn is_unfit_line(placed: bool, before: &[Heard<'_, i64>], sort: Sort, value: i64) -> bool
    ensures { AreHeard (says sections.Line) [] before.now → (word : Token) → sort ≡ sort_of word →
        SaysAt sections.Line (length before.now) word.text value →
        IsTrue result ↔ IsUnfitLine placed (map heard_token before.now ++ word ∷ []) }
{
    texts_have_one_number();
    match before.len() {
        1 => has_late_width(placed, value),
        4 => has_other_shape(value_at(1, before), sort),
        9 => has_other_end(value_at(1, before), sort),
        _ => false,
    }
}

/// Whether the last word, which has this sort and says this number, does not fit what stands before it.
fn is_unfit(said: &Held, before: &[Heard<'_, i64>], sort: Sort, value: i64) -> bool
    ensures { (units : List (List Token)) → Holds units said.now →
        AreHeard (says said.now.section) [] before.now → (word : Token) → sort ≡ sort_of word →
        SaysAt said.now.section (length before.now) word.text value →
        IsTrue result ↔ IsUnfit said.now.section (standing units) (map heard_token before.now ++ word ∷ []) }
{
    texts_have_one_number();
    match said.section {
        Section::Die => before.len() == 9 && is_flat(before),
        Section::Vias => is_begun_badly(said, before, sort),
        Section::Nets => is_begun_badly(said, before, sort),
        Section::Line => is_unfit_line(said.placed, before, sort, value),
        _ => false,
    }
}

/// Whether the first word of an entry or of the end of the list is refused for the count of the list.
fn is_begun_badly(said: &Held, before: &[Heard<'_, i64>], sort: Sort) -> bool
    ensures { IsTrue result ↔ ((length before.now ≡ 0)
        × (((the Sort.Minus sort ≡ true) × (said.now.count ≡ said.now.entries))
        ⊎ ((the Sort.Minus sort ≡ false) × (said.now.count ≢ said.now.entries)))) }
{
    before.is_empty() && is_miscounted(said.count, said.entries, is_the(Sort::Minus, sort))
}

/// What the last word says, which has this sort, or why it is refused.
pub(crate) fn last_value(
    said: &Held,
    before: &[Heard<'_, i64>],
    word: &Word<'_>,
    sort: Sort,
) -> Result<i64, WiringKind>
    ensures { (units : List (List Token)) → Holds units said.now →
        AreHeard (says (standing units).section) [] before.now → sort ≡ sort_of (token word.now) →
        FindsValue (LastFault (standing units) (map heard_token before.now ++ token word.now ∷ []))
        (says (standing units).section (map heard_token before.now ++ token word.now ∷ [])) result }
{
    let value = number_in(said.section, before.len(), word.text)?;
    if is_unfit(said, before, sort, value) {
        return Err(WiringKind::Syntax);
    }
    Ok(value)
}
