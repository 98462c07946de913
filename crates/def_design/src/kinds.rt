//! The kinds of units that say something, by their words.
ghost use Rattle.std.specs.Prelude.{◌≡◌};
ghost use Rattle.def_design.specs.inside.Value.{said_row, said_placed, said_excepts, turn_of};
ghost use Rattle.def_design.specs.Unit.{is_across};

use crate::value::{Value, sort_at};
use def_statements::{Sort, is_the};
use geom_rect::Orient;
use reading::Heard;

/// Whether the unit is a row.
pub(crate) fn is_row(unit: &[Heard<'_, Value>]) -> bool
    ensures { result ≡ said_row unit.now }
{
    unit.len() > 6 && is_the(Sort::Row, sort_at(0, unit))
}

/// Whether the unit is the part of a component that places it.
pub(crate) fn is_placed(unit: &[Heard<'_, Value>]) -> bool
    ensures { result ≡ said_placed unit.now }
{
    unit.len() == 6
        && (is_the(Sort::Placed, sort_at(0, unit)) || is_the(Sort::Fixed, sort_at(0, unit)))
}

/// Whether the unit is the part of a blockage by which it blocks no wires of a power grid.
pub(crate) fn excepts(unit: &[Heard<'_, Value>]) -> bool
    ensures { result ≡ said_excepts unit.now }
{
    unit.len() == 1
        && (is_the(Sort::ExceptPgNet, sort_at(0, unit)) || is_the(Sort::Fills, sort_at(0, unit)))
}

/// The orientation that a word of this sort says; north of a word that says none.
pub(crate) fn turn_of(sort: Sort) -> Orient
    ensures { result ≡ turn_of sort }
{
    match sort {
        Sort::S => Orient::S,
        Sort::W => Orient::W,
        Sort::E => Orient::E,
        Sort::FN => Orient::FN,
        Sort::FS => Orient::FS,
        Sort::FW => Orient::FW,
        Sort::FE => Orient::FE,
        _ => Orient::N,
    }
}

/// Whether it turns a row to a side.
pub(crate) fn is_across(sort: Sort) -> bool
    ensures { result ≡ is_across sort }
{
    match sort {
        Sort::W => true,
        Sort::E => true,
        Sort::FW => true,
        Sort::FE => true,
        _ => false,
    }
}
