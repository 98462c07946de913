//! Generated vias.
ghost use Rattle.std.specs.Prelude.{◌≡◌, ◌↔◌, ℤ, IsTrue, IfOk};
ghost use Rattle.def_wiring.specs.Fault.{HasNumbers};
ghost use Rattle.def_wiring.specs.Number.{IsNumber};
ghost use Rattle.def_wiring.specs.Record.{SaidVia, SaysNumbers, SaysVia};
ghost use Rattle.def_wiring.specs.Words.{text_at, text_or_one};

use crate::label::{Label, Words};
use crate::number::{Quantity, is_read, number_of};
use crate::record::ViaDef;
use outside::Name;
use std::alloc::{AllocError, Global};

/// The numbers of a generated via.
#[derive(Clone, Copy, Debug)]
pub(crate) struct ViaNumbers {
    pub(crate) cut_x: i64,
    pub(crate) cut_y: i64,
    pub(crate) gap_x: i64,
    pub(crate) gap_y: i64,
    pub(crate) lower_x: i64,
    pub(crate) lower_y: i64,
    pub(crate) upper_x: i64,
    pub(crate) upper_y: i64,
    pub(crate) rows: i64,
    pub(crate) columns: i64,
}

/// Two numbers.
#[derive(Clone, Copy, Debug)]
struct Pair {
    x: i64,
    y: i64,
}

/// The number that the word in this place is.
fn number_at(words: &Words<'_>, quantity: Quantity, n: usize) -> Result<i64, AllocError>
    ensures { IfOk result (IsNumber quantity (text_at n words.now)) }
{
    number_of(quantity, words.text_at(n))
}

/// The count that it is, or 1 where there is no such word.
fn count_at(words: &Words<'_>, n: usize) -> Result<i64, AllocError>
    ensures { IfOk result (IsNumber Quantity.Positive (text_or_one n words.now)) }
{
    number_of(Quantity::Positive, words.text_or_one(n))
}

/// The numbers that the words in these two places are.
fn pair_at(words: &Words<'_>, quantity: Quantity, n: usize, m: usize) -> Result<Pair, AllocError>
    ensures x { IfOk result (λ pair. IsNumber quantity (text_at n words.now) pair.x) }
    ensures y { IfOk result (λ pair. IsNumber quantity (text_at m words.now) pair.y) }
{
    let first = number_at(words, quantity, n)?;
    let second = number_at(words, quantity, m)?;
    Ok(Pair {
        x: first,
        y: second,
    })
}

/// The numbers of rows and columns.
fn counts_of(words: &Words<'_>) -> Result<Pair, AllocError>
    ensures x { IfOk result (λ pair. IsNumber Quantity.Positive (text_or_one 24 words.now) pair.x) }
    ensures y { IfOk result (λ pair. IsNumber Quantity.Positive (text_or_one 25 words.now) pair.y) }
{
    let first = count_at(words, 24)?;
    let second = count_at(words, 25)?;
    Ok(Pair {
        x: first,
        y: second,
    })
}

/// The numbers that these words say.
pub(crate) fn via_numbers(words: &Words<'_>) -> Result<ViaNumbers, AllocError>
    ensures { IfOk result (SaysNumbers words.now) }
{
    let cut = pair_at(words, Quantity::Positive, 5, 6)?;
    let gap = pair_at(words, Quantity::NotNegative, 14, 15)?;
    let lower = pair_at(words, Quantity::NotNegative, 18, 19)?;
    let upper = pair_at(words, Quantity::NotNegative, 20, 21)?;
    let counts = counts_of(words)?;
    Ok(ViaNumbers {
        cut_x: cut.x,
        cut_y: cut.y,
        gap_x: gap.x,
        gap_y: gap.y,
        lower_x: lower.x,
        lower_y: lower.y,
        upper_x: upper.x,
        upper_y: upper.y,
        rows: counts.x,
        columns: counts.y,
    })
}

/// Whether the word in this place is a number of this kind.
fn has_number(words: &Words<'_>, quantity: Quantity, n: usize) -> bool
    ensures { IsTrue result ↔ ((value : ℤ) × IsNumber quantity (text_at n words.now) value) }
{
    is_read(quantity, words.text_at(n))
}

/// Whether it is a count, where there is such a word.
fn has_count(words: &Words<'_>, n: usize) -> bool
    ensures { IsTrue result ↔ ((value : ℤ) × IsNumber Quantity.Positive (text_or_one n words.now) value) }
{
    is_read(Quantity::Positive, words.text_or_one(n))
}

/// Whether the numbers of a generated via can be read with their signs.
pub(crate) fn has_numbers(words: &Words<'_>) -> bool
    ensures { IsTrue result ↔ HasNumbers words.now }
{
    if !has_number(words, Quantity::Positive, 5) {
        return false;
    }
    if !has_number(words, Quantity::Positive, 6) {
        return false;
    }
    if !has_number(words, Quantity::NotNegative, 14) {
        return false;
    }
    if !has_number(words, Quantity::NotNegative, 15) {
        return false;
    }
    if !has_number(words, Quantity::NotNegative, 18) {
        return false;
    }
    if !has_number(words, Quantity::NotNegative, 19) {
        return false;
    }
    if !has_number(words, Quantity::NotNegative, 20) {
        return false;
    }
    if !has_number(words, Quantity::NotNegative, 21) {
        return false;
    }
    if !has_count(words, 24) {
        return false;
    }
    has_count(words, 25)
}

/// The generated via of this name with these words after it.
pub(crate) fn via_of(
    alloc: Global,
    name: &Label<'_>,
    words: &Words<'_>,
) -> Result<ViaDef, AllocError>
    ensures { IfOk result (SaysVia (record { name = name.now; words = words.now })) }
{
    let numbers = via_numbers(words)?;
    Ok(ViaDef {
        name: Name::new(alloc, name.bytes())?,
        rule: Name::new(alloc, words.text_at(2))?,
        cut_x: numbers.cut_x,
        cut_y: numbers.cut_y,
        lower: Name::new(alloc, words.text_at(9))?,
        cut: Name::new(alloc, words.text_at(10))?,
        upper: Name::new(alloc, words.text_at(11))?,
        gap_x: numbers.gap_x,
        gap_y: numbers.gap_y,
        lower_x: numbers.lower_x,
        lower_y: numbers.lower_y,
        upper_x: numbers.upper_x,
        upper_y: numbers.upper_y,
        rows: numbers.rows,
        columns: numbers.columns,
    })
}
