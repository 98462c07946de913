//! Netlists as a format.
ghost use Rattle.std.specs.Prelude.{◌≡◌};
ghost use Rattle.spice_cards.specs.Rule.{pattern};
ghost use Rattle.spice_cards.specs.Format.{format};
ghost use Rattle.spice_cards.specs.Sort.{all_sorts};
ghost use Rattle.spice_cards.specs.inside.Held.{Holds};
ghost use Rattle.spice_cards.specs.inside.Value.{says};
ghost use Rattle.reading.specs.Grammar.{IsRegular};

use crate::error::CardsKind;
use crate::fault::{card_word, first_value};
use crate::held::{Held, take_unit};
use crate::rule::rule;
use crate::section::{Section, is_ended, section_after};
use crate::sort::{Sort, sort_of};
use crate::value::Value;
use number_place::texts_have_one_number;
use reading::{Found, Grammar, Heard, Rule, Word, told_at};
use std::alloc::AllocError;

/// The format of netlists, which depends on nothing but the text.
pub(crate) struct CardsFormat;

impl<'a> Grammar<'a> for CardsFormat {
    type Sort = Sort;

    type Section = Section;

    type Record = Held<'a>;

    type Kind = CardsKind;

    type Value = Value;

    ghost format = { λ cards. format };

    ghost pattern = { pattern };

    ghost says = { λ cards units. says };

    ghost holds = { λ cards held units. Holds units held };

    // Into the loop over the words, so that what most words say costs no call.
    #[inline(always)]
    fn hear(
        &self,
        said: &Held<'a>,
        before: &[Heard<'a, Value>],
        word: &Word<'a>,
        sort: Sort,
    ) -> Result<Value, Found<CardsKind>> {
        match before {
            [] => told_at(0, first_value(said.section, sort)),
            [first, a, b, more @ ..] => card_word(
                first.value.letter(),
                a.word.text,
                b.word.text,
                more,
                word,
                sort,
            ),
            _ => Ok(Value::Nothing),
        }
    }

    fn sort(&self, _said: &Held<'a>, word: &Word<'a>) -> Sort {
        sort_of(word)
    }

    fn section(&self, said: &Held<'a>) -> Section {
        said.section
    }

    fn rule(section: Section) -> Rule<'a, Sort> {
        rule(section)
    }

    fn ends(&self, said: &Held<'a>) -> bool {
        is_ended(said.section)
    }

    fn take(&self, said: &mut Held<'a>, unit: &[Heard<'a, Value>]) -> Result<(), AllocError> {
        take_unit(&mut said.cards, unit)?;
        said.section = section_after(said.section, unit);
        Ok(())
    }

    fn regular(&self)
        ensures { IsRegular all_sorts pattern format }
    {
        texts_have_one_number();
    }
}
