//! The text of wiring as a format.
ghost use Rattle.std.specs.Prelude.{◌≡◌};
ghost use Rattle.def_wiring.specs.Format.{format};
ghost use Rattle.def_wiring.specs.Rule.{pattern};
ghost use Rattle.def_wiring.specs.Sort.{all_sorts};
ghost use Rattle.def_wiring.specs.inside.Held.{Holds};
ghost use Rattle.def_wiring.specs.inside.Value.{says};
ghost use Rattle.reading.specs.Grammar.{IsRegular};

use crate::error::Shown;
use crate::fault::{first_fault, second_fault, sort_or};
use crate::held::Held;
use crate::rule::rule;
use crate::section::Section;
use crate::sort::{Sort, sort_of};
use number_place::texts_have_one_number;
use reading::{Found, Grammar, Heard, Rule, Word, told_at};
use std::alloc::AllocError;

/// The format of the text of wiring, which depends on nothing but the text.
pub(crate) struct WiresFormat;

impl<'a> Grammar<'a> for WiresFormat {
    type Sort = Sort;

    type Section = Section;

    type Record = Held<'a>;

    type Kind = Shown;

    /// The sort of a word.
    type Value = Sort;

    ghost format = { λ wires. format };

    ghost pattern = { pattern };

    ghost says = { λ wires units. says };

    ghost holds = { λ wires held units. Holds units held };

    fn hear(
        &self,
        said: &Held<'a>,
        before: &[Heard<'a, Sort>],
        word: &Word<'a>,
        sort: Sort,
    ) -> Result<Sort, Found<Shown>> {
        let section = said.standing.section();
        match before {
            [] => told_at(
                0,
                sort_or(
                    first_fault(section, &said.said, &said.standing, sort, word),
                    sort,
                ),
            ),
            [first] => told_at(
                1,
                sort_or(second_fault(section, &said.said, first.value, word), sort),
            ),
            _ => Ok(sort),
        }
    }

    fn sort(&self, _said: &Held<'a>, word: &Word<'a>) -> Sort {
        sort_of(word)
    }

    fn section(&self, said: &Held<'a>) -> Section {
        said.standing.section()
    }

    fn rule(section: Section) -> Rule<'a, Sort> {
        rule(section)
    }

    fn ends(&self, said: &Held<'a>) -> bool {
        said.standing.section().is_ended()
    }

    fn take(&self, said: &mut Held<'a>, unit: &[Heard<'a, Sort>]) -> Result<(), AllocError> {
        said.take(unit)
    }

    fn regular(&self)
        ensures { IsRegular all_sorts pattern format }
    {
        texts_have_one_number();
    }
}
