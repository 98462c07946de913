//! Wave files as a format.
ghost use Rattle.wave_file.specs.Rule.{pattern};
ghost use Rattle.wave_file.specs.Format.{format};
ghost use Rattle.wave_file.specs.Sort.{all_sorts, number_of};
ghost use Rattle.wave_file.specs.inside.Held.{Holds};
ghost use Rattle.wave_file.specs.inside.Value.{says};
ghost use Rattle.reading.specs.Grammar.{IsRegular};
ghost use Rattle.reading.specs.Rule.{IsRule};

use crate::error::WavesKind;
use crate::fault::{high_value, low_value, node_value, step_value};
use crate::held::{Held, take_unit};
use crate::rule::rule;
use crate::section::Section;
use crate::sort::{Sort, sort_of};
use crate::value::Value;
use number_place::texts_have_one_number;
use outside::Name;
use reading::{Found, Grammar, Heard, Rule, Word, told_at};
use std::alloc::AllocError;

/// The format of the wave files of groups with these names.
#[derive(Clone, Copy)]
pub(crate) struct WavesFormat<'n> {
    pub(crate) names: &'n [Name],
}

impl<'a, 'n> Grammar<'a> for WavesFormat<'n> {
    type Sort = Sort;

    type Section = Section;

    type Record = Held<'a>;

    type Kind = WavesKind;

    type Value = Value;

    ghost format = { λ waves. format waves.names.now };

    ghost pattern = { pattern };

    ghost says = { λ waves units. says waves.names.now };

    ghost holds = { λ waves held units. Holds waves.names.now units held };

    fn sort(&self, _said: &Held<'a>, word: &Word<'a>) -> Sort {
        sort_of(word)
    }

    fn section(&self, _said: &Held<'a>) -> Section {
        Section::Lines
    }

    fn rule(section: Section) -> Rule<'a, Sort>
        ensures { IsRule number_of result (pattern section) }
    {
        rule(section)
    }

    fn hear(
        &self,
        said: &Held<'a>,
        before: &[Heard<'a, Value>],
        word: &Word<'a>,
        sort: Sort,
    ) -> Result<Value, Found<WavesKind>> {
        match before {
            [_] => told_at(1, step_value(said, word.text)),
            [_, step] => told_at(2, node_value(said, step.value.step(), word.text)),
            [_, _, _] => told_at(3, low_value(word.text)),
            [_, _, _, low] => told_at(4, high_value(low.value.amps(), word, sort)),
            _ => Ok(Value::Nothing),
        }
    }

    fn ends(&self, _said: &Held<'a>) -> bool {
        false
    }

    fn take(&self, said: &mut Held<'a>, unit: &[Heard<'a, Value>]) -> Result<(), AllocError> {
        take_unit(said, unit)
    }

    fn regular(&self)
        ensures { IsRegular all_sorts pattern (format self.now.names.now) }
    {
        texts_have_one_number();
    }
}
