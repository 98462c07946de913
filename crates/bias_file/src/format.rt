//! Bias files as a format.
ghost use Rattle.std.specs.Prelude.{◌≡◌};
ghost use Rattle.bias_file.specs.Rule.{pattern};
ghost use Rattle.bias_file.specs.Format.{format};
ghost use Rattle.bias_file.specs.Sort.{all_sorts};
ghost use Rattle.bias_file.specs.inside.Held.{Holds};
ghost use Rattle.bias_file.specs.inside.Value.{says};
ghost use Rattle.reading.specs.Grammar.{IsRegular};

use crate::error::BiasKind;
use crate::fault::{fifth_value, fourth_value, name_value, third_value};
use crate::held::{Held, take_amps, take_drop, take_pad, take_supply};
use crate::rule::rule;
use crate::section::{Section, section_after};
use crate::sort::{Sort, sort_of};
use crate::value::Value;
use number_place::texts_have_one_number;
use reading::{Found, Grammar, Heard, Rule, Word, told_at};
use std::alloc::AllocError;

/// The format of bias files, which depends on nothing but the text.
pub(crate) struct BiasFormat;

impl<'a> Grammar<'a> for BiasFormat {
    type Sort = Sort;

    type Section = Section;

    type Record = Held<'a>;

    type Kind = BiasKind;

    type Value = Value;

    ghost format = { λ bias. format };

    ghost pattern = { pattern };

    ghost says = { λ bias units. says };

    ghost holds = { λ bias held units. Holds units held };

    fn hear(
        &self,
        said: &Held<'a>,
        before: &[Heard<'a, Value>],
        word: &Word<'a>,
        sort: Sort,
    ) -> Result<Value, Found<BiasKind>> {
        match before {
            [] => Ok(Value::Line(sort)),
            [first] => told_at(1, name_value(&said.lists, first.value.line(), word.text)),
            [first, _] => told_at(2, third_value(first.value.line(), word.text)),
            [first, _, third] => {
                told_at(3, fourth_value(first.value.line(), third.value, word, sort))
            }
            [first, _, _, _] => told_at(4, fifth_value(first.value.line(), word.text)),
            _ => Ok(Value::Nothing),
        }
    }

    fn sort(&self, _said: &Held<'a>, word: &Word<'a>) -> Sort {
        sort_of(word)
    }

    fn section(&self, said: &Held<'a>) -> Section {
        said.section
    }

    fn rule(section: Section) -> Rule<'a, Sort> {
        rule(section)
    }

    fn ends(&self, _said: &Held<'a>) -> bool {
        false
    }

    fn take(&self, said: &mut Held<'a>, unit: &[Heard<'a, Value>]) -> Result<(), AllocError> {
        take_supply(&mut said.lists.supplies, said.alloc, unit)?;
        take_drop(&mut said.lists.drops, said.alloc, unit)?;
        take_pad(&mut said.lists.pads, said.alloc, unit)?;
        take_amps(&mut said.lists.cells, Sort::Cell, said.alloc, unit)?;
        take_amps(&mut said.lists.instances, Sort::Instance, said.alloc, unit)?;
        said.section = section_after(unit);
        Ok(())
    }

    fn regular(&self)
        ensures { IsRegular all_sorts pattern format }
    {
        texts_have_one_number();
    }
}
