//! The words of a unit, by their places in it.
ghost use Rattle.std.specs.Prelude.{◌≡◌, ◌<◌, [], Some, length, map};
ghost use Rattle.reading.specs.Grammar.{AreHeard};
ghost use Rattle.reading.specs.Word.{heard_token};
ghost use Rattle.wiring_file.specs.declared.number.Quantity.{Quantity};
ghost use Rattle.wiring_file.specs.declared.section.Section.{Section};
ghost use Rattle.wiring_file.specs.Fault.{Says};
ghost use Rattle.wiring_file.specs.Number.{numbers_in, quantity_at};
ghost use Rattle.wiring_file.specs.Unit.{text_at, sort_at, is_entry, ends_net, is_place};
ghost use Rattle.wiring_file.specs.inside.Value.{says};

use crate::sort::{Sort, is_the, sort_of};
use reading::Heard;

/// The bytes of the word that has n words before it; none where there is no such word.
pub(crate) fn text_at<'a>(n: usize, unit: &[Heard<'a, i64>]) -> &'a [u8]
    ensures { result.now ≡ text_at n (map heard_token unit.now) }
{
    match unit.get(n) {
        Some(heard) => heard.word.text,
        None => b"",
    }
}

/// The number that the word says which has n words before it.
pub(crate) fn value_at(n: usize, unit: &[Heard<'_, i64>]) -> i64
    ensures { (section : Section) (quantity : Quantity) → AreHeard (says section) [] unit.now →
        quantity_at n (numbers_in section) ≡ Some quantity → n < length unit.now →
        Says quantity n (map heard_token unit.now) result }
{
    match unit.get(n) {
        Some(heard) => heard.value,
        None => 0,
    }
}

/// The sort of the word that has n words before it.
fn sort_at(n: usize, unit: &[Heard<'_, i64>]) -> Sort
    ensures { result ≡ sort_at n (map heard_token unit.now) }
{
    match unit.get(n) {
        Some(heard) => sort_of(&heard.word),
        None => Sort::Other,
    }
}

/// Whether the unit is an entry of the vias or of the nets.
pub(crate) fn is_entry(unit: &[Heard<'_, i64>]) -> bool
    ensures { result ≡ is_entry (map heard_token unit.now) }
{
    is_the(Sort::Minus, sort_at(0, unit))
}

/// Whether the unit ends the wiring of a net.
pub(crate) fn ends_net(unit: &[Heard<'_, i64>]) -> bool
    ensures { result ≡ ends_net (map heard_token unit.now) }
{
    is_the(Sort::Semicolon, sort_at(0, unit))
}

/// Whether the line of wiring has a via.
pub(crate) fn is_place(unit: &[Heard<'_, i64>]) -> bool
    ensures { result ≡ is_place (map heard_token unit.now) }
{
    unit.len() == 10
}
