//! What the words of a unit say, and the faults that they show.
ghost use Rattle.std.specs.Prelude.{◌≡◌, ◌↔◌, ℕ, List, Contains, IsTrue, true};
ghost use Rattle.def_design.specs.Fault.{refused_kind, NumberFault, ApartFault, OneFault, NoArea, DieEndFault, TurnFault, missing, MissingFault};
ghost use Rattle.def_design.specs.Number.{IsNumber};
ghost use Rattle.def_design.specs.declared.error.DefKind.{DefKind as Reason};
ghost use Rattle.def_design.specs.declared.number.Quantity.TheVariants as quantities;
ghost use Rattle.def_design.specs.inside.Value.{SaysNothing, AreCornersOf};
ghost use Rattle.reading.specs.Fault.{FindsValue};
ghost use Rattle.reading.specs.Word.{Token as Text};

use crate::error::{DefKind, Item};
use crate::kinds::is_across;
use crate::number::{Quantity, read_number};
use crate::value::{Value, number_at};
use def_statements::Sort;
use fixed_decimal::DecimalError;
use named_entries::NamedEntries;
use number_place::{Refused, texts_have_one_number};
use reading::Heard;

/// The kind of a number that is refused.
fn refused_kind(quantity: Quantity, refused: Refused) -> DefKind
    ensures { result ≡ refused_kind quantity refused }
{
    match (quantity, refused) {
        (Quantity::Microns, Refused::Number(DecimalError::Range)) => DefKind::Syntax,
        (_, Refused::Number(error)) => DefKind::Number(error),
        (_, Refused::Syntax) => DefKind::Syntax,
    }
}

/// The number of this kind, or why the text is refused as one.
pub(crate) fn number_value(quantity: Quantity, text: &[u8]) -> Result<i64, DefKind>
    ensures { FindsValue (NumberFault quantity text.now) (IsNumber quantity text.now) result }
{
    match read_number(quantity, text) {
        Ok(value) => Ok(value),
        Err(refused) => Err(refused_kind(quantity, refused)),
    }
}

/// Whether two numbers are the same.
fn is_same(one: i64, other: i64) -> bool
    ensures { IsTrue result ↔ (one ≡ other) }
{
    one == other
}

/// The edge of a rectangle, or why it is refused, where this is the other one.
pub(crate) fn apart_value(other: i64, text: &[u8]) -> Result<i64, DefKind>
    ensures { (edge : List ℕ) → IsNumber quantities.Any edge other →
        FindsValue (ApartFault edge text.now) (IsNumber quantities.Any text.now) result }
{
    texts_have_one_number();
    match number_value(Quantity::Any, text) {
        Ok(value) => {
            if is_same(value, other) {
                Err(DefKind::Syntax)
            } else {
                Ok(value)
            }
        }
        Err(kind) => Err(kind),
    }
}

/// The second count of a row, or why it is refused.
pub(crate) fn one_value(text: &[u8]) -> Result<i64, DefKind>
    ensures { FindsValue (OneFault text.now) SaysNothing result }
{
    match read_number(Quantity::Positive, text) {
        Err(refused) => Err(refused_kind(Quantity::Positive, refused)),
        Ok(value) => {
            if value == 1 {
                Ok(value)
            } else {
                Err(DefKind::RowForm)
            }
        }
    }
}

/// Why a statement is refused that may stand once.
pub(crate) fn again_value(stands: bool) -> Result<i64, DefKind>
    ensures { FindsValue (λ kind. (kind ≡ Reason.Twice) × (stands ≡ true)) SaysNothing result }
{
    if stands { Err(DefKind::Twice) } else { Ok(0) }
}

/// Why the name is refused, if it is one of these.
pub(crate) fn name_value<'a>(names: &NamedEntries<'a, ()>, name: &'a [u8]) -> Result<i64, DefKind>
    ensures { FindsValue (λ kind. (kind ≡ Reason.Twice) × Contains names.now.names name.now) SaysNothing result }
{
    if names.contains(name) {
        Err(DefKind::Twice)
    } else {
        Ok(0)
    }
}

/// Whether two points of the die span no area.
fn has_no_area(before: &[Heard<'_, Value>]) -> bool
    ensures { (unit : List Text) → AreCornersOf 2 unit before.now → IsTrue result ↔ NoArea unit }
{
    texts_have_one_number();
    is_same(number_at(2, before), number_at(6, before))
        || is_same(number_at(3, before), number_at(7, before))
}

/// Why the word after two points of the die is refused.
pub(crate) fn die_end_value(before: &[Heard<'_, Value>], last: Sort) -> Result<i64, DefKind>
    ensures { (unit : List Text) → AreCornersOf 2 unit before.now →
        FindsValue (DieEndFault unit last) SaysNothing result }
{
    if let Sort::Open = last {
        return Err(DefKind::Polygon);
    }
    if has_no_area(before) {
        Err(DefKind::Syntax)
    } else {
        Ok(0)
    }
}

/// Why the orientation of a row is refused.
pub(crate) fn turn_value(turn: Sort) -> Result<i64, DefKind>
    ensures { FindsValue (TurnFault turn) SaysNothing result }
{
    if is_across(turn) {
        Err(DefKind::RowForm)
    } else {
        Ok(0)
    }
}

/// Why a word that begins a wire is refused, where wires are.
pub(crate) fn wire_value(wiring: bool) -> Result<i64, DefKind>
    ensures { FindsValue (λ kind. (kind ≡ Reason.AlreadyRouted) × (wiring ≡ true)) SaysNothing result }
{
    if wiring {
        Err(DefKind::AlreadyRouted)
    } else {
        Ok(0)
    }
}

/// What a design lacks.
fn missing(design: bool, units: bool, die: bool) -> Option<Item>
    ensures { result ≡ missing design units die }
{
    if !design {
        return Some(Item::Design);
    }
    if !units {
        return Some(Item::Units);
    }
    if die { None } else { Some(Item::DieArea) }
}

/// Why the end of the text is refused.
pub(crate) fn end_value(design: bool, units: bool, die: bool) -> Result<i64, DefKind>
    ensures { FindsValue (MissingFault (missing design units die)) SaysNothing result }
{
    match missing(design, units, die) {
        None => Ok(0),
        Some(item) => Err(DefKind::Missing(item)),
    }
}
