//! The lines of a wave file, as rules.
ghost use Rattle.wave_file.specs.Sort.{number_of};
ghost use Rattle.wave_file.specs.Rule.{pattern};
ghost use Rattle.reading.specs.Rule.{IsRule};

use crate::section::Section;
use crate::sort::Sort;
use reading::Rule;

/// A step or a name is any word, also `at` or `;`.
const WORD: Rule<'static, Sort> = Rule::Other(&[Sort::LineEnd, Sort::TextEnd]);

/// In the place of a current stands any word but `;`, `(` and `)`.
const NUMBER: Rule<'static, Sort> = Rule::Other(&[Sort::Mark, Sort::LineEnd, Sort::TextEnd]);

/// A line ends with its line feed or with the text.
const END: Rule<'static, Sort> = Rule::One(&[Sort::LineEnd, Sort::TextEnd]);

/// `I` or `LOW HIGH`, and the end of the line.
const RANGE: Rule<'static, Sort> = Rule::Then(&NUMBER, &Rule::Or(&END, &Rule::Then(&NUMBER, &END)));

/// `at STEP NODE I`, `at STEP NODE LOW HIGH`.
const CHANGE_LINE: Rule<'static, Sort> = Rule::Then(
    &Rule::One(&[Sort::At]),
    &Rule::Then(&WORD, &Rule::Then(&WORD, &RANGE)),
);

/// A line, or an empty one.
const LINE: Rule<'static, Sort> = Rule::Or(&CHANGE_LINE, &END);

/// The units of a section.
pub(crate) fn rule(section: Section) -> Rule<'static, Sort>
    ensures { IsRule number_of result (pattern section) }
{
    match section {
        Section::Lines => LINE,
    }
}
