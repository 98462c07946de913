//! Technologies as a format.
ghost use Rattle.std.specs.Prelude.{◌≡◌};
ghost use Rattle.lef_tech.specs.Format.{format, is_ended};
ghost use Rattle.lef_tech.specs.Pattern.{pattern};
ghost use Rattle.lef_tech.specs.Sort.{all_sorts};
ghost use Rattle.lef_tech.specs.inside.Held.{Holds};
ghost use Rattle.lef_tech.specs.inside.Value.{says};
ghost use Rattle.reading.specs.Grammar.{IsRegular};

use crate::error::TechKind;
use crate::fault::heard_value;
use crate::held::{Held, add_told};
use crate::moving::{move_on, named};
use crate::pattern::rule;
use crate::question::question_of;
use crate::section::Section;
use crate::shape::{shape_of, shape_with};
use crate::sort::{Sort, sort_of};
use crate::statement::statement_of;
use crate::value::Value;
use number_place::{texts_have_one_number, values_fit_their_places};
use reading::{Found, Grammar, Heard, Rule, Word, last_heard};
use std::alloc::AllocError;

/// The format of technologies, which depends on nothing but the text.
pub(crate) struct TechFormat;

/// Whether `END LIBRARY` has ended the text.
fn is_ended(section: Section) -> bool
    ensures { result ≡ is_ended section }
{
    match section {
        Section::Ended => true,
        _ => false,
    }
}

impl<'a> Grammar<'a> for TechFormat {
    type Sort = Sort;

    type Section = Section;

    type Record = Held<'a>;

    type Kind = TechKind;

    type Value = Value;

    ghost format = { λ tech. format };

    ghost pattern = { pattern };

    ghost says = { λ tech. says };

    ghost holds = { λ tech held units. Holds units held };

    fn sort(&self, _said: &Held<'a>, word: &Word<'a>) -> Sort {
        sort_of(word)
    }

    fn section(&self, said: &Held<'a>) -> Section {
        said.state.place.section
    }

    fn rule(section: Section) -> Rule<'a, Sort> {
        rule(section)
    }

    fn hear(
        &self,
        said: &Held<'a>,
        before: &[Heard<'a, Value>],
        word: &Word<'a>,
        sort: Sort,
    ) -> Result<Value, Found<TechKind>> {
        let question = question_of(said.state.place.section, shape_with(before, sort));
        heard_value(&said.state, question, before, word, sort)
    }

    fn ends(&self, said: &Held<'a>) -> bool {
        is_ended(said.state.place.section)
    }

    fn take(&self, said: &mut Held<'a>, unit: &[Heard<'a, Value>]) -> Result<(), AllocError> {
        values_fit_their_places();
        let Some(last) = last_heard(unit) else {
            return Ok(());
        };
        let shape = shape_of(unit);
        let section = said.state.place.section;
        let reference = named(&mut said.state, shape, unit);
        let told = statement_of(said.alloc, section, reference, shape, unit)?;
        add_told(&mut said.statements, told)?;
        move_on(&mut said.state, shape, reference, &last.word)
    }

    fn regular(&self)
        ensures { IsRegular all_sorts pattern format }
    {
        texts_have_one_number();
    }
}
