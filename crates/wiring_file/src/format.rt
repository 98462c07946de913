//! Written wirings as a format.
ghost use Rattle.wiring_file.specs.Rule.{pattern};
ghost use Rattle.wiring_file.specs.Format.{format};
ghost use Rattle.wiring_file.specs.Sort.{all_sorts, number_of};
ghost use Rattle.wiring_file.specs.Standing.{standing};
ghost use Rattle.wiring_file.specs.inside.Held.{Holds};
ghost use Rattle.wiring_file.specs.inside.Value.{says};
ghost use Rattle.reading.specs.Grammar.{IsRegular};
ghost use Rattle.reading.specs.Rule.{IsRule};

use crate::error::WiringKind;
use crate::fault::last_value;
use crate::held::Held;
use crate::rule::rule;
use crate::section::Section;
use crate::sort::{Sort, sort_of};
use crate::taking::{next_section, take_count, take_line, take_net, take_start, take_via};
use number_place::texts_have_one_number;
use reading::{Found, Grammar, Heard, Rule, Word, told_at};
use std::alloc::AllocError;

/// The format of written wirings.
#[derive(Clone, Copy)]
pub(crate) struct WiringFormat;

impl<'a> Grammar<'a> for WiringFormat {
    type Sort = Sort;

    type Section = Section;

    type Record = Held;

    type Kind = WiringKind;

    /// A number, and 0 of each word that is none.
    type Value = i64;

    ghost format = { λ wiring. format };

    ghost pattern = { pattern };

    ghost says = { λ wiring units. says (standing units).section };

    ghost holds = { λ wiring held units. Holds units held };

    fn sort(&self, _said: &Held, word: &Word<'a>) -> Sort {
        sort_of(word)
    }

    fn section(&self, said: &Held) -> Section {
        said.section
    }

    fn rule(section: Section) -> Rule<'a, Sort>
        ensures { IsRule number_of result (pattern section) }
    {
        rule(section)
    }

    fn hear(
        &self,
        said: &Held,
        before: &[Heard<'a, i64>],
        word: &Word<'a>,
        sort: Sort,
    ) -> Result<i64, Found<WiringKind>> {
        told_at(before.len(), last_value(said, before, word, sort))
    }

    fn ends(&self, _said: &Held) -> bool {
        false
    }

    fn take(&self, said: &mut Held, unit: &[Heard<'a, i64>]) -> Result<(), AllocError> {
        match said.section {
            Section::ViasHead => {
                take_count(said, unit, Section::Vias);
                Ok(())
            }
            Section::Vias => take_via(said, unit),
            Section::NetsHead => {
                take_count(said, unit, Section::Nets);
                Ok(())
            }
            Section::Nets => take_net(said, unit),
            Section::First => {
                take_start(said, unit);
                Ok(())
            }
            Section::Next => {
                take_start(said, unit);
                Ok(())
            }
            Section::Line => take_line(said, unit),
            section => {
                said.section = next_section(section);
                Ok(())
            }
        }
    }

    fn regular(&self)
        ensures { IsRegular all_sorts pattern (format) }
    {
        texts_have_one_number();
    }
}
