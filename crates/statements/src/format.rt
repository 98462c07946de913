//! The format of texts of statements `SET name number ;`.
ghost use Rattle.std.specs.Prelude.{◌≡◌};
ghost use Rattle.reading.specs.Grammar.{IsRegular};
ghost use Rattle.statements.specs.Sort.{all_sorts};
ghost use Rattle.statements.specs.Rule.{pattern_of};
ghost use Rattle.statements.specs.Record.{count_of};
ghost use Rattle.statements.specs.Format.{statements_format};

use crate::fault::{Kind, whole_number};
use crate::record::count_in;
use crate::rule::UNIT;
use crate::section::Section;
use crate::sort::{Sort, sort_of};
use reading::{Found, Grammar, Heard, Rule, Word};
use std::alloc::AllocError;

/// The format, which depends on nothing beside the text.
pub(crate) struct Statements;

impl<'a> Grammar<'a> for Statements {
    type Sort = Sort;

    type Section = Section;
    /// How many statements there were.
    type Record = u64;

    type Kind = Kind;
    /// A word says nothing: a statement counts, and not its number.
    type Value = ();

    ghost format = { λ _. statements_format };

    ghost pattern = { pattern_of };

    ghost says = { λ _ units part value. Unit {0} };

    ghost holds = { λ _ said units. said ≡ count_of units };

    fn sort(&self, _: &u64, word: &Word<'a>) -> Sort {
        sort_of(word)
    }

    fn section(&self, _: &u64) -> Section {
        Section::Statements
    }

    fn rule(_: Section) -> Rule<'a, Sort> {
        UNIT
    }

    fn hear(
        &self,
        _: &u64,
        before: &[Heard<'a, ()>],
        word: &Word<'a>,
        _: Sort,
    ) -> Result<(), Found<Kind>> {
        match before {
            [_, _] => whole_number(word),
            _ => Ok(()),
        }
    }

    fn ends(&self, _: &u64) -> bool {
        false
    }

    fn take(&self, said: &mut u64, unit: &[Heard<'a, ()>]) -> Result<(), AllocError> {
        *said = said.saturating_add(count_in(unit));
        Ok(())
    }

    fn regular(&self)
        ensures { IsRegular all_sorts pattern_of statements_format }
    {}
}
