//! What the words of a unit say, and the faults that they show.
ghost use Rattle.std.specs.Prelude.{◌≡◌, List};
ghost use Rattle.lef_cells.specs.declared.sort.Sort.{Sort as Keyword};
ghost use Rattle.lef_cells.specs.Fault.{refused_kind, LengthFault, Again, OtherName, SecondFault, names_of, last_name};
ghost use Rattle.lef_cells.specs.Rule.{is_head};
ghost use Rattle.lef_cells.specs.Section.{standing_of};
ghost use Rattle.lef_cells.specs.inside.Held.{Holds, HoldsIn};
ghost use Rattle.lef_cells.specs.inside.Value.{IsLength, SaysSecond};
ghost use Rattle.reading.specs.Blocks.{blocks};
ghost use Rattle.reading.specs.Fault.{FindsValue};
ghost use Rattle.reading.specs.Word.{Token};

use crate::error::CellsKind;
use crate::held::Held;
use crate::number::LENGTH;
use crate::section::Section;
use crate::sort::Sort;
use crate::value::Value;
use named_entries::NamedEntries;
use number_place::{Refused, small_number_at, values_fit_their_places};

/// The kind of a number that is refused.
fn refused_kind(refused: Refused) -> CellsKind
    ensures { result ≡ refused_kind refused }
{
    match refused {
        Refused::Syntax => CellsKind::Syntax,
        Refused::Number(error) => CellsKind::Number(error),
    }
}

/// The length that the text is, or why it is refused as one.
pub(crate) fn length_value(text: &[u8]) -> Result<Value, CellsKind>
    ensures { FindsValue (LengthFault text.now) (IsLength text.now) result }
{
    values_fit_their_places();
    match small_number_at(LENGTH, text) {
        Ok(value) => Ok(Value::Length(value.unsigned_abs())),
        Err(refused) => Err(refused_kind(refused)),
    }
}

/// The name says nothing; it is refused, if one of these entries has it.
fn again<'a, T: Drop>(entries: &NamedEntries<'a, T>, name: &'a [u8]) -> Result<Value, CellsKind>
    ensures { (word : Keyword) (units : List (List Token)) → entries.now.names ≡ names_of word units →
        FindsValue (Again word units name.now) (λ value. Unit {0}) result }
{
    if entries.contains(name) {
        return Err(CellsKind::Twice);
    }
    Ok(Value::Nothing)
}

/// The name after END says nothing; it is refused, where this is not the name of the section that is open.
fn other_name(own: &[u8], name: &[u8]) -> Result<Value, CellsKind>
    ensures { (units : List (List Token)) → own.now ≡ last_name (blocks is_head units) →
        FindsValue (OtherName units name.now) (λ value. Unit {0}) result }
{
    if name == own {
        return Ok(Value::Nothing);
    }
    Err(CellsKind::Syntax)
}

/// What the name after SITE says in this section, or why it is refused.
fn site_value<'a>(held: &Held<'a>, section: Section, name: &'a [u8]) -> Result<Value, CellsKind>
    ensures { (units : List (List Token)) → HoldsIn section units held.now.said →
        FindsValue (SecondFault Keyword.Site section units name.now) (λ value. Unit {0}) result }
{
    match section {
        Section::Top => again(&held.said.sites, name),
        _ => Ok(Value::Nothing),
    }
}

/// What the name after MACRO says in this section, or why it is refused.
fn macro_value<'a>(held: &Held<'a>, section: Section, name: &'a [u8]) -> Result<Value, CellsKind>
    ensures { (units : List (List Token)) → HoldsIn section units held.now.said →
        FindsValue (SecondFault Keyword.Macro section units name.now) (λ value. Unit {0}) result }
{
    match section {
        Section::Top => again(&held.said.macros, name),
        _ => Ok(Value::Nothing),
    }
}

/// What the name after END says in this section, or why it is refused.
fn end_value<'a>(held: &Held<'a>, section: Section, name: &'a [u8]) -> Result<Value, CellsKind>
    ensures { (units : List (List Token)) → HoldsIn section units held.now.said →
        FindsValue (SecondFault Keyword.End section units name.now) (λ value. Unit {0}) result }
{
    match section {
        Section::SizedSite => other_name(held.said.open.name, name),
        Section::SizedMacro => other_name(held.said.open.name, name),
        _ => Ok(Value::Nothing),
    }
}

/// What the second word says after a word of this sort, or why it is refused.
pub(crate) fn second_value<'a>(
    held: &Held<'a>,
    first: Sort,
    second: &'a [u8],
) -> Result<Value, CellsKind>
    ensures { (units : List (List Token)) → Holds units held.now →
        FindsValue (SecondFault first (standing_of units).section units second.now) (SaysSecond first second.now)
        result }
{
    let section = held.standing.section;
    match first {
        Sort::Site => site_value(held, section, second),
        Sort::Macro => macro_value(held, section, second),
        Sort::End => end_value(held, section, second),
        Sort::Size => length_value(second),
        _ => Ok(Value::Nothing),
    }
}
