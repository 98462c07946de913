//! Scripts as a format.
ghost use Rattle.std.specs.Prelude.{◌≡◌};
ghost use Rattle.pdn_script.specs.Format.{format};
ghost use Rattle.pdn_script.specs.Rule.{pattern};
ghost use Rattle.pdn_script.specs.Sort.{all_sorts};
ghost use Rattle.pdn_script.specs.inside.Held.{Holds};
ghost use Rattle.pdn_script.specs.inside.Value.{says};
ghost use Rattle.reading.specs.Grammar.{IsRegular};

use crate::error::ScriptKind;
use crate::fault::{first_value, word_value};
use crate::given::waiting;
use crate::held::Held;
use crate::late::late_fault;
use crate::rule::rule;
use crate::section::{Section, section_by};
use crate::sort::{Sort, sort_of};
use crate::statement::unit_says;
use crate::value::Value;
use reading::{Found, Grammar, Heard, Rule, Word, told_at};
use script_options::{numbers_keep_limits, values_have_one_refusal};
use std::alloc::AllocError;

/// The format of scripts, which depends on nothing but the text.
pub(crate) struct ScriptFormat;

impl<'a> Grammar<'a> for ScriptFormat {
    type Sort = Sort;

    type Section = Section;

    type Record = Held<'a>;

    type Kind = ScriptKind;

    type Value = Value;

    ghost format = { λ script. format };

    ghost pattern = { pattern };

    ghost says = { λ script. says };

    ghost holds = { λ script held units. Holds units held };

    fn hear(
        &self,
        said: &Held<'a>,
        before: &[Heard<'a, Value>],
        word: &Word<'a>,
        _sort: Sort,
    ) -> Result<Value, Found<ScriptKind>> {
        let known = &said.known;
        match before.split_first() {
            None => told_at(0, first_value(known, word)),
            Some((first, words)) => {
                let (command, waits) = (first.value.command(), waiting(words));
                match late_fault(known, command, waits, words, word) {
                    Some(found) => Err(found),
                    None => told_at(before.len(), word_value(known, command, waits, words, word)),
                }
            }
        }
    }

    fn sort(&self, _said: &Held<'a>, word: &Word<'a>) -> Sort {
        sort_of(word)
    }

    fn section(&self, said: &Held<'a>) -> Section {
        section_by(said.known.passing)
    }

    fn rule(section: Section) -> Rule<'a, Sort> {
        rule(section)
    }

    fn ends(&self, _said: &Held<'a>) -> bool {
        false
    }

    fn take(&self, said: &mut Held<'a>, unit: &[Heard<'a, Value>]) -> Result<(), AllocError> {
        numbers_keep_limits();
        let told = unit_says(said.alloc, &said.known, unit)?;
        said.lists.add(told)?;
        said.known.take_unit(unit)
    }

    fn regular(&self)
        ensures { IsRegular all_sorts pattern format }
    {
        values_have_one_refusal();
    }
}
