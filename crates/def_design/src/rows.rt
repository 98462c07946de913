//! The rows of a design.
ghost use Rattle.std.specs.Prelude.{◌≡◌, true, IfOk, OnOk, map};
ghost use Rattle.def_design.specs.Record.{SaysRow, SaysCount, SaysStep};
ghost use Rattle.def_design.specs.Unit.{is_row};
ghost use Rattle.def_design.specs.inside.Held.{HoldsRows, Leads, WhenWhole};
ghost use Rattle.def_design.specs.inside.Value.{count_said, step_said};
ghost use Rattle.reading.specs.Word.{heard_token};

use crate::kinds::{is_row, turn_of};
use crate::record::Row;
use crate::value::{Value, number_at, sort_at, text_at};
use def_statements::{Sort, is_the};
use outside::Name;
use reading::Heard;
use std::alloc::{AllocError, Global};

/// How many sites a row has, which says so or not.
fn count_of(says: bool, unit: &[Heard<'_, Value>]) -> i64
    ensures { result ≡ count_said says unit.now }
{
    if says { number_at(7, unit) } else { 1 }
}

/// How far apart they are, where the row says so.
fn step_of(says: bool, unit: &[Heard<'_, Value>]) -> Option<i64>
    ensures { result ≡ step_said says unit.now }
{
    if says {
        Some(number_at(11, unit))
    } else {
        None
    }
}

/// The row that a unit says.
fn row_of(alloc: Global, unit: &[Heard<'_, Value>]) -> Result<Row, AllocError>
    ensures { IfOk result (λ row. WhenWhole unit.now (is_row (map heard_token unit.now) ≡ true →
        SaysRow (map heard_token unit.now) row)) }
{
    Ok(Row {
        name: Name::new(alloc, text_at(1, unit))?,
        site: Name::new(alloc, text_at(2, unit))?,
        x: number_at(3, unit),
        y: number_at(4, unit),
        orient: turn_of(sort_at(5, unit)),
        count: count_of(is_the(Sort::Do, sort_at(6, unit)), unit),
        step: step_of(is_the(Sort::Step, sort_at(10, unit)), unit),
    })
}

/// One more row, if the unit says one.
pub(crate) fn take_row(
    rows: &mut Vec<Row>,
    alloc: Global,
    unit: &[Heard<'_, Value>],
) -> Result<(), AllocError>
    ensures { OnOk result (WhenWhole unit.now (Leads HoldsRows (map heard_token unit.now) rows.old.items rows.new.items)) }
{
    if is_row(unit) {
        rows.push(row_of(alloc, unit)?)?;
    }
    Ok(())
}
