//! The lines of a bias file, as rules.
ghost use Rattle.bias_file.specs.Sort.{number_of};
ghost use Rattle.bias_file.specs.Rule.{pattern};
ghost use Rattle.reading.specs.Rule.{IsRule};

use crate::section::Section;
use crate::sort::Sort;
use reading::Rule;

/// A name is any word, also a first word or `;`, but not the word that begins a comment.
const NAME: Rule<'static, Sort> = Rule::Other(&[Sort::Comment, Sort::LineEnd, Sort::TextEnd]);

/// In the place of a number stands any word but `;`, `(`, `)` and the word that begins a comment.
const NUMBER: Rule<'static, Sort> = Rule::Other(&[
    Sort::Mark,
    Sort::Comment,
    Sort::LineEnd,
    Sort::TextEnd,
]);

/// A line ends where a comment begins, with its line feed, or with the text.
const END: Rule<'static, Sort> = Rule::One(&[Sort::Comment, Sort::LineEnd, Sort::TextEnd]);

/// What stands after the first word of `supply NET V` and its like.
const NAME_AND_VALUE: Rule<'static, Sort> = Rule::Then(&NAME, &Rule::Then(&NUMBER, &END));

/// What stands after the first word of `cell MACRO I`, `cell MACRO LOW HIGH` and their like.
const NAME_AND_RANGE: Rule<'static, Sort> = Rule::Then(
    &NAME,
    &Rule::Then(&NUMBER, &Rule::Or(&END, &Rule::Then(&NUMBER, &END))),
);

/// What stands after the first word of `pad NET LAYER x y`.
const NAMES_AND_PLACE: Rule<'static, Sort> = Rule::Then(
    &NAME,
    &Rule::Then(&NAME, &Rule::Then(&NUMBER, &Rule::Then(&NUMBER, &END))),
);

const SUPPLY_LINE: Rule<'static, Sort> = Rule::Then(&Rule::One(&[Sort::Supply]), &NAME_AND_VALUE);

const DROP_LIMIT_LINE: Rule<'static, Sort> = Rule::Then(
    &Rule::One(&[Sort::DropLimit]),
    &NAME_AND_VALUE,
);

const PAD_LINE: Rule<'static, Sort> = Rule::Then(&Rule::One(&[Sort::Pad]), &NAMES_AND_PLACE);

const CELL_LINE: Rule<'static, Sort> = Rule::Then(&Rule::One(&[Sort::Cell]), &NAME_AND_RANGE);

const INSTANCE_LINE: Rule<'static, Sort> = Rule::Then(
    &Rule::One(&[Sort::Instance]),
    &NAME_AND_RANGE,
);

/// A line, or an empty one.
const LINE: Rule<'static, Sort> = Rule::Or(
    &SUPPLY_LINE,
    &Rule::Or(
        &DROP_LIMIT_LINE,
        &Rule::Or(
            &PAD_LINE,
            &Rule::Or(&CELL_LINE, &Rule::Or(&INSTANCE_LINE, &END)),
        ),
    ),
);

/// After the word that begins a comment each word is passed over, and the end of the line ends it.
const REMARK: Rule<'static, Sort> = Rule::Other(&[]);

/// The units of a section.
pub(crate) fn rule(section: Section) -> Rule<'static, Sort>
    ensures { IsRule number_of result (pattern section) }
{
    match section {
        Section::LineStart => LINE,
        Section::Remark => REMARK,
        Section::Nothing => Rule::Nothing,
    }
}
