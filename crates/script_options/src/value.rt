//! Whether a word may be the value of an option.
ghost use Rattle.std.specs.Prelude.{◌≡◌, ◌↔◌, true, false, IsTrue, IfNone, IfOk, Some, Err, length};
ghost use Rattle.std.specs.List.{AllByRecursion};
ghost use Rattle.number_place.specs.declared.place.Refused.{Refused as Reason};
ghost use Rattle.number_place.specs.declared.place.Refused.TheVariants as reasons;
ghost use Rattle.script_options.specs.ListWords.{words_of};
ghost use Rattle.script_options.specs.Number.{RefusesNumber, HasNumber};
ghost use Rattle.script_options.specs.Value.{is_start as start, fits as fit, AnyOtherWord, AnySyntax, FirstRefused, RefusesNames, RefusesNumbers, Refuses, Suits, SaysNumber};
ghost use Rattle.text_lex.specs.Name.{IsName};

use crate::list::first_part;
use crate::number::{Quantity, number_refused, number_told};
use crate::table::{Counts, ValueForm};
use number_place::Refused;
use text_lex::is_name;

/// Whether the word is `POWER` or `GROUND`.
fn is_start(text: &[u8]) -> bool
    ensures { result ≡ start text.now }
{
    text == b"POWER".as_slice() || text == b"GROUND".as_slice()
}

/// Whether a list may have so many values.
fn fits(counts: Counts, count: usize) -> bool
    ensures { result ≡ fit counts count }
{
    match counts {
        Counts::Any => true,
        Counts::Two => count == 2,
        Counts::OneOrTwo => count == 1 || count == 2,
        Counts::OneTwoOrFour => count == 1 || count == 2 || count == 4,
    }
}

/// How many words a list has.
fn count_of(text: &[u8]) -> usize
    ensures { result ≡ length (words_of text.now) }
{
    let mut count: usize = 0;
    let mut rest = text;
    loop {
        let Some(part) = first_part(rest) else {
            return count;
        };
        count += 1;
        rest = part.rest;
    }
}

/// Whether a word of the list is no name.
fn any_other_word(text: &[u8]) -> bool
    ensures is { IsTrue result ↔ AnyOtherWord (words_of text.now) }
    ensures names { result ≡ false → AllByRecursion IsName (words_of text.now) }
{
    let mut rest = text;
    loop {
        let Some(part) = first_part(rest) else {
            return false;
        };
        if !is_name(part.word) {
            return true;
        }
        rest = part.rest;
    }
}

/// Whether it is the refusal for the form.
fn is_form(refused: Refused) -> bool
    ensures { IsTrue result ↔ (refused ≡ reasons.Syntax) }
{
    match refused {
        Refused::Syntax => true,
        Refused::Number(_) => false,
    }
}

/// Whether the text is refused for its form.
fn is_syntax(quantity: Quantity, text: &[u8]) -> bool
    ensures { IsTrue result ↔ RefusesNumber quantity text.now reasons.Syntax }
{
    match number_refused(quantity, text) {
        Some(refused) => is_form(refused),
        None => false,
    }
}

/// Whether a word of the list is refused for its form.
fn any_syntax(quantity: Quantity, text: &[u8]) -> bool
    ensures { IsTrue result ↔ AnySyntax quantity (words_of text.now) }
{
    let mut rest = text;
    loop {
        let Some(part) = first_part(rest) else {
            return false;
        };
        if is_syntax(quantity, part.word) {
            return true;
        }
        rest = part.rest;
    }
}

/// Why the first word of the list that is refused as a number is refused.
fn first_refused(quantity: Quantity, text: &[u8]) -> Option<Refused>
    ensures is { (refused : Reason) → (result ≡ Some refused) ↔ FirstRefused quantity (words_of text.now) refused }
    ensures fine { IfNone result (AllByRecursion (HasNumber quantity) (words_of text.now)) }
{
    let mut rest = text;
    loop {
        let Some(part) = first_part(rest) else {
            return None;
        };
        if let Some(refused) = number_refused(quantity, part.word) {
            return Some(refused);
        }
        rest = part.rest;
    }
}

/// Why the list of names is refused.
fn names_refused(counts: Counts, text: &[u8]) -> Option<Refused>
    ensures is { (refused : Reason) → (result ≡ Some refused) ↔ RefusesNames counts (words_of text.now) refused }
    ensures fine { IfNone result ((fit counts (length (words_of text.now)) ≡ true) ×
        AllByRecursion IsName (words_of text.now)) }
{
    if !fits(counts, count_of(text)) || any_other_word(text) {
        return Some(Refused::Syntax);
    }
    None
}

/// Why the list of numbers is refused.
fn numbers_refused(quantity: Quantity, counts: Counts, text: &[u8]) -> Option<Refused>
    ensures is { (refused : Reason) → (result ≡ Some refused) ↔ RefusesNumbers quantity counts (words_of text.now) refused }
    ensures fine { IfNone result ((fit counts (length (words_of text.now)) ≡ true) ×
        AllByRecursion (HasNumber quantity) (words_of text.now)) }
{
    if !fits(counts, count_of(text)) || any_syntax(quantity, text) {
        return Some(Refused::Syntax);
    }
    first_refused(quantity, text)
}

/// The refusal for the form, where the word has not the form.
fn syntax_unless(holds: bool) -> Option<Refused>
    ensures is { (refused : Reason) → (result ≡ Some refused) ↔ ((refused ≡ reasons.Syntax) × (¬ IsTrue holds)) }
    ensures fine { IfNone result (IsTrue holds) }
{
    if holds { None } else { Some(Refused::Syntax) }
}

/// Why the word is refused as a value of this form.
pub fn value_refused(form: ValueForm, text: &[u8]) -> Option<Refused>
    ensures is { (refused : Reason) → (result ≡ Some refused) ↔ Refuses form text.now refused }
    ensures fine { IfNone result (Suits form text.now) }
{
    match form {
        ValueForm::Nothing => None,
        ValueForm::Name => syntax_unless(is_name(text)),
        ValueForm::Start => syntax_unless(is_start(text)),
        ValueForm::Number(quantity) => number_refused(quantity, text),
        ValueForm::Names(counts) => names_refused(counts, text),
        ValueForm::Numbers(quantity, counts) => numbers_refused(quantity, counts, text),
    }
}

/// The number that the word says as a value of this form, and 0 of one that is no number; or why it is refused.
pub fn value_told(form: ValueForm, text: &[u8]) -> Result<u64, Refused>
    ensures refused { (refused : Reason) → (result ≡ Err refused) ↔ Refuses form text.now refused }
    ensures fine { IfOk result (λ value. Suits form text.now) }
    ensures says { IfOk result (λ value. SaysNumber form text.now value) }
{
    match form {
        ValueForm::Number(quantity) => number_told(quantity, text),
        _ => match value_refused(form, text) {
            None => Ok(0),
            Some(refused) => Err(refused),
        },
    }
}
