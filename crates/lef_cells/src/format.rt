//! The text of cells as a format.
ghost use Rattle.std.specs.Prelude.{◌≡◌};
ghost use Rattle.lef_cells.specs.Format.{format};
ghost use Rattle.lef_cells.specs.Rule.{pattern};
ghost use Rattle.lef_cells.specs.Sort.{all_sorts};
ghost use Rattle.lef_cells.specs.inside.Held.{Holds};
ghost use Rattle.lef_cells.specs.inside.Value.{says};
ghost use Rattle.reading.specs.Grammar.{IsRegular};

use crate::error::CellsKind;
use crate::fault::{length_value, second_value};
use crate::held::{Held, take_unit};
use crate::rule::rule;
use crate::section::Section;
use crate::sort::{Sort, sort_of};
use crate::value::Value;
use number_place::texts_have_one_number;
use reading::{Found, Grammar, Heard, Rule, Word, told_at};
use std::alloc::AllocError;

/// The format of the text of cells, which depends on nothing but the text.
pub(crate) struct CellsFormat;

impl<'a> Grammar<'a> for CellsFormat {
    type Sort = Sort;

    type Section = Section;

    type Record = Held<'a>;

    type Kind = CellsKind;

    type Value = Value;

    ghost format = { λ cells. format };

    ghost pattern = { pattern };

    ghost says = { λ cells units. says };

    ghost holds = { λ cells held units. Holds units held };

    fn hear(
        &self,
        said: &Held<'a>,
        before: &[Heard<'a, Value>],
        word: &Word<'a>,
        sort: Sort,
    ) -> Result<Value, Found<CellsKind>> {
        match before {
            [] => Ok(Value::First(sort)),
            [first] => told_at(1, second_value(said, first.value.first(), word.text)),
            [_, _, _] => told_at(3, length_value(word.text)),
            _ => Ok(Value::Nothing),
        }
    }

    fn sort(&self, _said: &Held<'a>, word: &Word<'a>) -> Sort {
        sort_of(word)
    }

    fn section(&self, said: &Held<'a>) -> Section {
        said.standing.section()
    }

    fn rule(section: Section) -> Rule<'a, Sort> {
        rule(section)
    }

    fn ends(&self, said: &Held<'a>) -> bool {
        matches!(said.standing.section(), Section::Ended)
    }

    fn take(&self, said: &mut Held<'a>, unit: &[Heard<'a, Value>]) -> Result<(), AllocError> {
        take_unit(&mut said.said, said.standing.section, said.alloc, unit)?;
        said.standing.go_on(unit);
        Ok(())
    }

    fn regular(&self)
        ensures { IsRegular all_sorts pattern format }
    {
        texts_have_one_number();
    }
}
