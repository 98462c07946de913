//! The text of a design as a format.
ghost use Rattle.std.specs.Prelude.{◌≡◌, ◌∷◌, ◌++◌, [], List, map};
ghost use Rattle.def_design.specs.Fault.{LastFault};
ghost use Rattle.def_design.specs.Format.{format};
ghost use Rattle.def_design.specs.Question.{question_of};
ghost use Rattle.def_design.specs.inside.Held.{Holds, HoldsSaid};
ghost use Rattle.def_design.specs.inside.Value.{SaysAsked, says};
ghost use Rattle.def_statements.specs.Pattern.{pattern};
ghost use Rattle.def_statements.specs.Sort.{all_sorts, sort_of};
ghost use Rattle.def_statements.specs.Standing.{section_of};
ghost use Rattle.reading.specs.Fault.{FindsValue};
ghost use Rattle.reading.specs.Grammar.{AreHeard, IsRegular};
ghost use Rattle.reading.specs.Word.{Token, token, heard_token};

use crate::error::DefKind;
use crate::fault::{
    again_value, apart_value, die_end_value, end_value, name_value, number_value, one_value,
    turn_value, wire_value,
};
use crate::held::{Held, Said, go_on};
use crate::question::{Question, question_of};
use crate::value::{Value, first_sort, number_at};
use def_statements::{Section, Sort, rule, sort_of};
use number_place::texts_have_one_number;
use reading::{Found, Grammar, Heard, Rule, Word};
use std::alloc::AllocError;

/// The format of the text of a design. It depends on whether wires of special nets are refused.
#[derive(Drop)]
pub(crate) struct DesignFormat {
    pub(crate) wiring_refused: bool,
}

/// The number of the word that comes next, of which this is asked, or why it is refused.
fn answer<'a>(
    wiring: bool,
    said: &Said<'a>,
    before: &[Heard<'a, Value>],
    word: &Word<'a>,
    sort: Sort,
    question: Question,
) -> Result<i64, DefKind>
    ensures { (units : List (List Token)) → HoldsSaid units said.now → AreHeard (says units) [] before.now →
        sort ≡ sort_of (token word.now) →
        question ≡ question_of (section_of units) (map heard_token before.now ++ token word.now ∷ []) →
        FindsValue (LastFault wiring units (map heard_token before.now ++ token word.now ∷ []) question)
        (SaysAsked question word.now.text.now) result }
{
    match question {
        Question::Nothing => Ok(0),
        Question::Number(quantity) => number_value(quantity, word.text),
        Question::Apart => apart_value(
            number_at(before.len().saturating_sub(4), before),
            word.text,
        ),
        Question::FirstDesign => again_value(said.top.name.is_some()),
        Question::FirstUnits => again_value(said.top.units.is_some()),
        Question::FirstDie => again_value(said.top.die.is_some()),
        Question::DieEnd => die_end_value(before, sort),
        Question::RowTurn => turn_value(sort),
        Question::OneRow => one_value(word.text),
        Question::NewComponent => name_value(&said.components.names, word.text),
        Question::NewRegion => name_value(&said.regions.names, word.text),
        Question::NoPolygon => Err(DefKind::Polygon),
        Question::NoWire => wire_value(wiring),
        Question::AllStands => end_value(
            said.top.name.is_some(),
            said.top.units.is_some(),
            said.top.die.is_some(),
        ),
    }
}

impl<'a> Grammar<'a> for DesignFormat {
    type Sort = Sort;

    type Section = Section;

    type Record = Held<'a>;

    type Kind = DefKind;

    type Value = Value;

    ghost format = { λ design. format design.wiring_refused };

    ghost pattern = { pattern };

    ghost says = { λ design. says };

    ghost holds = { λ design held units. Holds units held };

    fn sort(&self, _said: &Held<'a>, word: &Word<'a>) -> Sort {
        sort_of(word)
    }

    fn section(&self, said: &Held<'a>) -> Section {
        said.standing.section()
    }

    fn rule(section: Section) -> Rule<'a, Sort> {
        rule(section)
    }

    fn hear(
        &self,
        said: &Held<'a>,
        before: &[Heard<'a, Value>],
        word: &Word<'a>,
        sort: Sort,
    ) -> Result<Value, Found<DefKind>> {
        let section = said.standing.section();
        let question = question_of(section, first_sort(before, sort), before.len());
        match answer(
            self.wiring_refused,
            &said.said,
            before,
            word,
            sort,
            question,
        ) {
            Ok(number) => Ok(Value { sort, number }),
            Err(kind) => Err(Found {
                at: before.len(),
                kind,
            }),
        }
    }

    fn ends(&self, said: &Held<'a>) -> bool {
        matches!(said.standing.section(), Section::Ended)
    }

    fn take(&self, said: &mut Held<'a>, unit: &[Heard<'a, Value>]) -> Result<(), AllocError> {
        said.said.take(said.alloc, unit)?;
        go_on(&mut said.standing, unit);
        Ok(())
    }

    fn regular(&self)
        ensures { IsRegular all_sorts pattern (format self.now.wiring_refused) }
    {
        texts_have_one_number();
    }
}
