//! The text of blocks as a format.
ghost use Rattle.std.specs.Prelude.{◌≡◌};
ghost use Rattle.macro_blocks.specs.Format.{format};
ghost use Rattle.macro_blocks.specs.Rule.{pattern};
ghost use Rattle.macro_blocks.specs.Sort.{all_sorts};
ghost use Rattle.macro_blocks.specs.inside.Held.{Holds};
ghost use Rattle.macro_blocks.specs.inside.Value.{says};
ghost use Rattle.reading.specs.Grammar.{IsRegular};

use crate::error::Shown;
use crate::fault::{first_value, later_value, second_value, stop_value, third_value};
use crate::held::Held;
use crate::rule::rule;
use crate::section::Section;
use crate::sort::{Sort, sort_of};
use crate::value::Value;
use number_place::texts_have_one_number;
use reading::{Found, Grammar, Heard, Rule, Word, told_at};
use std::alloc::AllocError;

/// The format of the text of blocks, which depends on nothing but the text.
pub(crate) struct BlocksFormat;

impl<'a> Grammar<'a> for BlocksFormat {
    type Sort = Sort;

    type Section = Section;

    type Record = Held<'a>;

    type Kind = Shown;

    type Value = Value;

    ghost format = { λ blocks. format };

    ghost pattern = { pattern };

    ghost says = { λ blocks units. says units };

    ghost holds = { λ blocks held units. Holds units held };

    fn hear(
        &self,
        said: &Held<'a>,
        before: &[Heard<'a, Value>],
        word: &Word<'a>,
        sort: Sort,
    ) -> Result<Value, Found<Shown>> {
        let section = said.standing.section();
        let standing = &said.standing;
        let bad = said.said.bad;
        match before {
            [] => told_at(0, first_value(section, standing, bad, sort)),
            [first] => told_at(
                1,
                second_value(section, standing, bad, first.value.first(), word, sort),
            ),
            [_, _] => told_at(2, third_value(section, standing, word, sort)),
            [_, _, _] => told_at(3, later_value(section, standing, word, sort)),
            [_, _, _, _] => told_at(4, later_value(section, standing, word, sort)),
            [_, _, _, _, _] => told_at(5, stop_value(section, standing, sort)),
            _ => Ok(Value::Nothing),
        }
    }

    fn sort(&self, _said: &Held<'a>, word: &Word<'a>) -> Sort {
        sort_of(word)
    }

    fn section(&self, said: &Held<'a>) -> Section {
        said.standing.section()
    }

    fn rule(section: Section) -> Rule<'a, Sort> {
        rule(section)
    }

    fn ends(&self, said: &Held<'a>) -> bool {
        said.standing.section().is_ended()
    }

    fn take(&self, said: &mut Held<'a>, unit: &[Heard<'a, Value>]) -> Result<(), AllocError> {
        said.take(unit)
    }

    fn regular(&self)
        ensures { IsRegular all_sorts pattern format }
    {
        texts_have_one_number();
    }
}
